// Program files, put together record by record.
use std::io::{Cursor, Write};

// One byte more than a file may have.
pub const ROOM: usize = 65537;

// The file so far. What does not fit is left out.
#[derive(Drop)]
pub struct Builder {
    bytes: Cursor<[u8; ROOM]>,
}

impl Builder {
    pub fn new() -> Builder {
        Builder {
            bytes: Cursor::new([0; ROOM]),
        }
    }

    // Records, one after another.
    fn append(&mut self, records: &[u8]) {
        let _ = self.bytes.write(records);
    }

    // The same records so many times.
    pub fn repeat(&mut self, records: &[u8], times: u32) {
        for _ in 0..times {
            self.append(records);
        }
    }

    // So many immediates, each of four words 1.
    pub fn immediates(&mut self, times: u32) {
        let record = b"\x02\x01\x00\x00\x00\x01\x00\x00\x00\x01\x00\x00\x00\x01\x00\x00\x00";
        self.repeat(record, times);
    }

    // A declaration of its own for each of so many registers of a file, from register 0 on.
    pub fn declare_each(&mut self, register_file: u8, registers: u16) {
        for index in 0..registers {
            let [low, high] = index.to_le_bytes();
            self.append(&[0x01, register_file, low, high, low, high]);
        }
    }

    // The whole file, its last record END.
    pub fn end(&mut self) -> &[u8] {
        self.append(b"\x89");
        let length = ROOM.min(self.bytes.position() as usize);
        &self.bytes.get_ref()[..length]
    }
}
