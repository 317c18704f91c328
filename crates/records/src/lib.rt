// Records of a file, walked by their lengths alone: format's specs/Records.antt says where record n lies.
#![tactic(auto)]

ghost use Rattle.std.specs.Prelude.{◌≡◌, ◌+◌};
ghost use Rattle.format.specs.Records.{size_at, start_of, record_of, bounds_of};

use format::kinds::{UNKNOWN, body_length};
use format::records::{Bounds, LONGEST};

// The size of the whole record, kind and body, that starts at a place; 0 where there is none.
#[tactic(auto, unfolding(format::specs::Records::size_at))]
pub fn size_at(file: &[u8], at: usize) -> usize
    ensures { result ≡ size_at file.now at }
{
    if at < file.len() {
        let n = body_length(file[at]);
        if n < UNKNOWN {
            let size = n as usize + 1;
            if size <= file.len() - at {
                return size;
            }
        }
    }
    0
}

// Where record n lies in the file; no bytes at the file's end where there is no such record.
pub fn record_bounds(file: &[u8], n: usize) -> Bounds
    ensures { result ≡ bounds_of file.now n }
{
    let none = Bounds {
        start: file.len(),
        length: 0,
    };
    if LONGEST < file.len() {
        return none;
    }
    let mut at = 0;
    for _ in 0..n {
        let size = size_at(file, at);
        if size == 0 {
            return none;
        }
        at += size;
    }
    let size = size_at(file, at);
    if size == 0 {
        return none;
    }
    Bounds {
        start: at,
        length: size,
    }
}

// Record n's own bytes as a part of the caller's file, kind first; the empty part at the file's end where there is none.
pub fn record(file: &[u8], n: usize) -> &[u8]
    ensures bytes { result.now ≡ record_of file.now n }
    ensures block { result.ref_ptr.0 ≡ file.entry.ref_ptr.0 }
    ensures place { result.ref_ptr.1 ≡ file.entry.ref_ptr.1 + start_of file.now n }
{
    let bounds = record_bounds(file, n);
    let start = bounds.start;
    let end = start + bounds.length;
    &file[start..end]
}
