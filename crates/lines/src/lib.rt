// The line of a record. Bytes are put where they lie within the output and counted in any case, so that an output of no bytes gives the
// length.
#![tactic(auto)]

ghost use Rattle.std.specs.Prelude.{◌≡◌, [], ◌∷◌, ◌++◌, ◌+◌, ◌≤◌, length};
ghost use Rattle.std.proofs.lemmas.List.Edits.{sets};
ghost use Rattle.format.specs.Kinds.{form_of, widths};
ghost use Rattle.text.specs.Decimal.{decimal};
ghost use Rattle.text.specs.Parts.{space, line_feed, spaced};
ghost use Rattle.lines.specs.Lines.{numbers_at, record_line};

use format::kinds::{MOST_FIELDS, field_width};
use text::numbers::put_decimal;
use text::output::put;
use text::parts::{LINE_FEED, SPACE};

// Puts a number with a space before it, and answers how many bytes that is.
fn put_field(n: u32, output: &mut [u8], at: usize) -> usize
    requires { at ≤ 8589934592 }
    ensures put { output.new ≡ sets output.old at (space ∷ decimal n) }
    ensures length { result ≡ length (space ∷ decimal n) }
    ensures few { result ≤ 11 }
{
    put(output, at, 0, SPACE);
    1 + put_decimal(n, output, at + 1)
}

// Puts the numbers of the fields of a record of this kind, which stand from a place on, each with a space before it.
fn put_fields(kind: u8, file: &[u8], from: usize, output: &mut [u8], at: usize) -> usize
    requires { (from ≤ 4294967296) × (at ≤ 4294967306) }
    ensures put { output.new ≡ sets output.old at (spaced (numbers_at file.now from (widths (form_of kind)))) }
    ensures length { result ≡ length (spaced (numbers_at file.now from (widths (form_of kind)))) }
    ensures few { result ≤ 220 }
{
    let mut place = from;
    let mut count: usize = 0;
    for i in 0..MOST_FIELDS {
        let width = field_width(kind, i);
        if width == 0 {
            return count;
        }
        count += put_field(readers::number_at(file, place, width), output, at + count);
        place += usize::from(width);
    }
    count
}

// Puts the line of the record at a place, without its line feed, and answers how many bytes that is.
pub fn put_line(file: &[u8], at: u32, output: &mut [u8], to: u32) -> usize
    ensures put { output.new ≡ sets output.old to (record_line file.now at) }
    ensures length { result ≡ length (record_line file.now at) }
    ensures few { result ≤ 230 }
{
    let place = at as usize;
    let front = to as usize;
    let kind = readers::byte_at(file, place);
    let length = put_decimal(u32::from(kind), output, front);
    length + put_fields(kind, file, place + 1, output, front + length)
}

// Puts the same with its line feed.
pub fn put_ended_line(file: &[u8], at: u32, output: &mut [u8], to: u32) -> usize
    ensures put { output.new ≡ sets output.old to (record_line file.now at ++ (line_feed ∷ [])) }
    ensures length { result ≡ length (record_line file.now at) + 1 }
    ensures few { result ≤ 231 }
{
    let length = put_line(file, at, output, to);
    put(output, to as usize, length, LINE_FEED);
    length + 1
}
