// Files of words: inputs and constants.
ghost use Rattle.std.specs.Prelude.{IfSome};
ghost use Rattle.io.specs.Counts.{IsPrefixLen};

use crate::{complaints, values};
use files::NAME_ROOM;

// Puts the words of a file at the start of `words`, as many as fit, and says where it has more.
fn words_named(rt: &HostRuntime, path: &[u8], title: &str, words: &mut [u32]) -> Option<usize>
    ensures { IfSome result (λ n. IsPrefixLen n words.new) }
{
    let mut bytes = [0u8; 16384];
    let start = files::start_named(rt, path, &mut bytes)?;
    let n = start.count;
    let total = n as u64 + start.rest;
    if total % 4 != 0 {
        files::fault_line(rt, path, b": not a whole number of 32-bit words");
        return None;
    }
    let count = values::put_words(&bytes[..n], words);
    complaints::unused_line(rt, title, count as u64, total / 4);
    Some(count)
}

// The same of the file that an argument names; no words where there is no such argument.
pub fn read_words(
    rt: &HostRuntime,
    argument: usize,
    title: &str,
    words: &mut [u32],
) -> Option<usize>
    ensures { IfSome result (λ n. IsPrefixLen n words.new) }
{
    if !files::is_given(rt, argument) {
        return Some(0);
    }
    let mut path = [0u8; NAME_ROOM];
    let n = files::name_of(rt, argument, title.as_bytes(), &mut path)?;
    words_named(rt, &path[..n], title, words)
}
