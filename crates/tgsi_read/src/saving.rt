// Writing a file so that its name stands for all of it or for what it stood for before: the bytes go to a new file beside it, which then
// takes its name. A link or a device would lose its place by that, so neither is taken.
ghost use Rattle.std.specs.Prelude.{◌≡◌, ◌≤◌, ◌++◌, length, codes};

use files::NAME_ROOM;
use std::fs::{File, OpenOptions};
use std::io::{ErrorKind, Seek, SeekFrom, Write};
use std::{fs, io};
use text::output::put_all;

// As many bytes as a name and `.part` take.
const ROOM: usize = NAME_ROOM + 5;

fn is_link(rt: &HostRuntime, name: &str) -> bool {
    fs::symlink_metadata(rt, name).is_ok_and(|metadata| metadata.is_symlink())
}

// A pipe or a terminal has no position, and a device such as /dev/null nothing to put on a disk. Neither call changes the file, its time
// included; a disk itself passes both.
fn is_regular(file: &mut File) -> bool {
    file.seek(SeekFrom::End(0)).is_ok() && file.sync_all().is_ok()
}

// Opens a file that is there for writing, and leaves its bytes as they are.
fn open_to_update(rt: &HostRuntime, name: &str) -> io::Result<File> {
    OpenOptions::new().read(true).write(true).open(rt, name)
}

// Makes a file by a name that is free, for writing.
fn open_new(rt: &HostRuntime, name: &str) -> io::Result<File> {
    OpenOptions::new()
        .write(true)
        .create_new(true)
        .open(rt, name)
}

// A name can be taken that is free or a regular file's that may be written.
fn can_be_taken(rt: &HostRuntime, name: &str) -> io::Result<()> {
    if is_link(rt, name) {
        return Err(io::Error::other("a link, not a regular file"));
    }
    match open_to_update(rt, name) {
        Ok(mut file) => {
            if is_regular(&mut file) {
                Ok(())
            } else {
                Err(io::Error::other("not a regular file"))
            }
        }
        Err(error) if error.kind() == ErrorKind::NotFound => Ok(()),
        Err(error) => Err(error),
    }
}

// Writes all bytes to a new file, and on to the disk or card, so that a write that fails late is seen too; closing has nothing left to
// write then.
fn write_to_disk(mut file: File, bytes: &[u8]) -> io::Result<()> {
    file.write_all(bytes)?;
    file.sync_all()
}

// What went well with a part, or none after a line that says what failed, and without the part.
fn ok_or_removed(rt: &HostRuntime, what: &str, part: &str, answer: io::Result<()>) -> Option<()> {
    let done = files::ok_or_told(rt, what.as_bytes(), answer);
    if done.is_none() {
        let _ = fs::remove_file(rt, part);
    }
    done
}

// Makes a part of these bytes, and gives it the name. Where that fails, a line says why, and no part that it made is left.
fn replace(rt: &HostRuntime, name: &str, part: &str, bytes: &[u8]) -> Option<()> {
    let file = files::ok_or_told(rt, part.as_bytes(), open_new(rt, part))?;
    ok_or_removed(rt, part, part, write_to_disk(file, bytes))?;
    ok_or_removed(rt, name, part, fs::rename(rt, part, name))
}

// A name with `.part` after it, as it stands in a buffer then.
fn part_of<'a>(name: &str, room: &'a mut [u8; ROOM]) -> &'a str
    requires { length name.now ≤ 4096 }
    ensures { result.now ≡ name.now ++ codes ".part" }
{
    put_all(room, 0, name.as_bytes());
    put_all(room, name.len(), ".part".as_bytes());
    let end = name.len() + 5;
    str::from_utf8(&room[..end]).unwrap()
}

// Writes bytes to the file that an argument names. Where that does not go well, a line says why, and what the name stood for is as it was.
pub fn save(rt: &HostRuntime, argument: usize, bytes: &[u8]) -> Option<()> {
    let mut path = [0u8; NAME_ROOM];
    let n = files::name_of(rt, argument, b"output", &mut path)?;
    let name = files::text_of(rt, &path[..n])?;
    if name.is_empty() {
        files::fault_line(rt, b"output", b": no name");
        return None;
    }
    files::ok_or_told(rt, name.as_bytes(), can_be_taken(rt, name))?;
    let mut room = [0u8; ROOM];
    let part = part_of(name, &mut room);
    replace(rt, name, part, bytes)
}
