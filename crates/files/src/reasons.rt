// Lines on standard error: what failed, and why in the system's words. No contract can say what is written.
ghost use Rattle.std.specs.Prelude.{◌≡◌};
ghost use Rattle.std.specs.Result.{result_ok};

use std::io;
use std::io::{Cursor, Write};

// More bytes than the text of any error takes.
const ROOM: usize = 320;

// One line, of three parts. What cannot be written here is lost, since there is no other place to tell it.
pub fn line(rt: &HostRuntime, what: &[u8], separator: &[u8], why: &[u8]) {
    let errors = rt.stderr();
    let _ = errors.write_all(what);
    let _ = errors.write_all(separator);
    let _ = errors.write_all(why);
    let _ = errors.write_all(b"\n");
}

// The system's words alone: std adds the error's number, as in ` (os error 2)`.
fn without_number(text: &str) -> &str {
    match text.split_once(" (os error ") {
        Some((words, _)) => words,
        None => text,
    }
}

// A line that says what failed, and why: `no-such-file: No such file or directory`.
pub fn fail(rt: &HostRuntime, what: &[u8], error: &io::Error)
    ensures { Unit {0} }
{
    let mut room = Cursor::new([0u8; ROOM]);
    let _ = write!(room, "{error}");
    let bytes = room.into_inner();
    let text = str::from_utf8(&bytes).unwrap_or("");
    let words = without_number(text).trim_end_matches('\0');
    line(rt, what, b": ", words.as_bytes());
}

// The value of what went well, or none after a line that says what failed, and why.
pub fn ok_or_told<T>(rt: &HostRuntime, what: &[u8], answer: io::Result<T>) -> Option<T>
    ensures { result ≡ result_ok answer }
{
    answer.inspect_err(|error| fail(rt, what, error)).ok()
}
