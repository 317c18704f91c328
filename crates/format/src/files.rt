// The register files by number, and where the words of registers stand (document 01, "Register files").
ghost use Rattle.std.specs.Prelude.{◌≡◌};
ghost use Rattle.format.specs.Files.{registers_of};

// "1 CONST 0-1023, 2 IN 0-31, 3 OUT 0-31, 4 TEMP 0-255, 5 ADDR 0, 6 IMM (.. not declared), 7 MEM 0."
pub const CONST: u8 = 1;

pub const IN: u8 = 2;

pub const OUT: u8 = 3;

pub const TEMP: u8 = 4;

pub const ADDR: u8 = 5;

pub const IMM: u8 = 6;

pub const MEM: u8 = 7;

// "Four words a register: OUT i from word 4i, TEMP i from 128+4i, ADDR from 1152; 1,156 words."
pub const TEMP_FROM: u32 = 128;

pub const ADDR_FROM: u32 = 1152;

pub const REGISTER_WORDS: usize = 1156;

// How many registers of a file can be declared.
pub fn registers_of(file: u8) -> usize
    ensures { result ≡ registers_of file }
{
    match file {
        CONST => 1024,
        IN => 32,
        OUT => 32,
        TEMP => 256,
        ADDR => 1,
        MEM => 1,
        _ => 0,
    }
}
