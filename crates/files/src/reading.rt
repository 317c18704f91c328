// Reading a file to its end. Each read's answer is looked at, so a read that fails is never taken for the end.
ghost use Rattle.std.specs.Prelude.{◌≡◌, ◌≤◌, ◌<◌, IfSome, MatchOption};
ghost use Rattle.std.specs.Str.{IsUtf8};
ghost use Rattle.io.specs.Counts.{IsPrefixLen};

use crate::reasons::ok_or_told;
use std::fs::File;
use std::io;

// More reads of 65,536 bytes than any file takes: 2^47.
const TURNS: u64 = 140737488355328;

// The system's number for bytes that are no text: a name has to be UTF-8.
const NO_TEXT: i32 = 84;

// A name as text, or none after a line that says why.
pub fn text_of<'a>(rt: &HostRuntime, path: &'a [u8]) -> Option<&'a str>
    ensures { MatchOption result (¬ (IsUtf8 path.now)) (λ name. (name.now ≡ path.now) × IsUtf8 path.now) }
{
    let name = str::from_utf8(path).map_err(|_| io::Error::from_raw_os_error(NO_TEXT));
    ok_or_told(rt, path, name)
}

// Opens a file, and answers none after a line with the system's reason.
pub fn open(rt: &HostRuntime, path: &[u8]) -> Option<File>
    ensures { Unit {0} }
{
    let name = text_of(rt, path)?;
    ok_or_told(rt, path, File::open(rt, name))
}

// One read, of no bytes at the file's end only.
fn read_some<F: io::Read>(
    rt: &HostRuntime,
    file: &mut F,
    path: &[u8],
    part: &mut [u8],
) -> Option<usize>
    ensures { IfSome result (λ n. IsPrefixLen n part.new) }
{
    ok_or_told(rt, path, file.read(part))
}

// Reads into a buffer until it is full or the file ends.
pub fn fill<F: io::Read>(
    rt: &HostRuntime,
    file: &mut F,
    path: &[u8],
    buffer: &mut [u8],
) -> Option<usize>
    ensures { IfSome result (λ n. IsPrefixLen n buffer.new) }
{
    let mut count = 0;
    while count < buffer.len() {
        let more = read_some(rt, file, path, &mut buffer[count..])?;
        if more == 0 {
            break;
        }
        count += more;
    }
    Some(count)
}

// Passes over some bytes, over none at the file's end only.
fn pass_over<F: io::Read>(rt: &HostRuntime, file: &mut F, path: &[u8]) -> Option<usize>
    ensures { IfSome result (λ n. n ≤ 65536) }
{
    let mut bytes = [0u8; 65536];
    read_some(rt, file, path, &mut bytes)
}

// Passes over all that is left of a file, and counts it. A proved loop ends, and nothing says that a file does: of one that goes on after
// TURNS reads there is no count.
pub fn rest_of<F: io::Read>(rt: &HostRuntime, file: &mut F, path: &[u8]) -> Option<u64>
    ensures { IfSome result (λ n. n < 9223372036854775808) }
{
    let mut bytes = 0;
    for _ in 0..TURNS {
        let more = pass_over(rt, file, path)?;
        if more == 0 {
            return Some(bytes);
        }
        bytes += more as u64;
    }
    None
}
