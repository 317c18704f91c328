// Numbers, operands and declarations at a place of the file: format's specs/Fields.antt says what these are. A byte past
// the end reads as 0, so no reader asks for more than the slice it is lent.
#![tactic(auto)]

ghost use Rattle.std.specs.Prelude.{◌≡◌, ◌+◌, ◌*◌, ◌<◌, ◌≤◌, get_or, length};
ghost use Rattle.format.specs.Fields.{word16, word32, number_at, destination_at, source_at, declaration_at, case_word, Bytes};

use format::fields::{Declaration, Destination, Source};

// The byte at a place.
pub fn byte_at(bytes: &[u8], at: usize) -> u8
    ensures { result ≡ get_or bytes.now at 0 }
{
    bytes.get(at).copied().unwrap_or(0)
}

// That what is lent as bytes has bytes only, for callers whose contract rests on it: their type says so.
pub fn all_bytes(bytes: &[u8])
    ensures { Bytes bytes.now }
{}

// The byte k places on; a place too large for a number is past every end.
fn byte_after(bytes: &[u8], at: usize, k: usize) -> u8
    ensures { result ≡ get_or bytes.now (at + k) 0 }
{
    byte_at(bytes, at.saturating_add(k))
}

// The 16-bit number of two bytes, the low one first.
fn u16_of(low: u8, high: u8) -> u16
    ensures { result ≡ low + 256 * high }
{
    u16::from_le_bytes([low, high])
}

// The 16-bit number k places on.
#[tactic(auto, unfolding(format::specs::Fields::word16))]
fn u16_after(bytes: &[u8], at: usize, k: u8) -> u16
    ensures { result ≡ word16 bytes.now (at + k) }
{
    let k = k as usize;
    u16_of(byte_after(bytes, at, k), byte_after(bytes, at, k + 1))
}

// The 32-bit number at a place.
#[tactic(auto, unfolding(format::specs::Fields::word32))]
pub fn u32_at(bytes: &[u8], at: usize) -> u32
    ensures { result ≡ word32 bytes.now at }
{
    u32::from_le_bytes([
        byte_at(bytes, at),
        byte_after(bytes, at, 1),
        byte_after(bytes, at, 2),
        byte_after(bytes, at, 3),
    ])
}

// The number of a field of this width at a place.
#[tactic(auto, unfolding(format::specs::Fields::number_at))]
pub fn number_at(bytes: &[u8], at: usize, width: u8) -> u32
    ensures { result ≡ number_at bytes.now at width }
{
    match width {
        1 => byte_at(bytes, at) as u32,
        2 => u16_after(bytes, at, 0) as u32,
        _ => u32_at(bytes, at),
    }
}

// The destination that stands at a place. Where all four bytes are there, as in every step, none is asked for by itself: a slice pattern
// says the same and takes a tenth longer.
#[tactic(auto, unfolding(format::specs::Fields::destination_at, format::specs::Fields::word16))]
pub fn destination_at(file: &[u8], at: usize) -> Destination
    ensures { result ≡ destination_at file.now at }
{
    if at < file.len() && 4 <= file.len() - at {
        return Destination {
            file: file[at],
            index: u16_of(file[at + 1], file[at + 2]),
            mask: file[at + 3],
        };
    }
    Destination {
        file: byte_at(file, at),
        index: u16_after(file, at, 1),
        mask: byte_after(file, at, 3),
    }
}

// The source that stands at a place, in the same way.
#[tactic(auto, unfolding(format::specs::Fields::source_at, format::specs::Fields::word16))]
pub fn source_at(file: &[u8], at: usize) -> Source
    ensures { result ≡ source_at file.now at }
{
    if at < file.len() && 5 <= file.len() - at {
        return Source {
            file: file[at],
            index: u16_of(file[at + 1], file[at + 2]),
            swizzle: file[at + 3],
            modifier: file[at + 4],
        };
    }
    Source {
        file: byte_at(file, at),
        index: u16_after(file, at, 1),
        swizzle: byte_after(file, at, 3),
        modifier: byte_after(file, at, 4),
    }
}

// The declaration whose file byte stands at a place.
#[tactic(auto, unfolding(format::specs::Fields::declaration_at))]
pub fn declaration_at(file: &[u8], at: usize) -> Declaration
    ensures { result ≡ declaration_at file.now at }
{
    Declaration {
        file: byte_at(file, at),
        first: u16_after(file, at, 1),
        last: u16_after(file, at, 3),
    }
}

// The word that a CASE record at a place compares: its immediate's component that the swizzle's x selects.
#[tactic(auto, unfolding(format::specs::Fields::case_word))]
pub fn case_word(immediates: &[u32], file: &[u8], at: usize) -> u32
    ensures { result ≡ case_word immediates.now file.now at }
{
    let index = u16_after(file, at, 2);
    let component = byte_after(file, at, 4) % 4;
    let i = 4 * index as usize + component as usize;
    immediates.get(i).copied().unwrap_or(0)
}
