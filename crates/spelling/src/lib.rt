// The record that a line of a listing gives, and whether the line is that record's own.
#![tactic(auto)]

ghost use Rattle.std.specs.Prelude.{◌≡◌, ◌+◌, ◌%◌, ◌^◌, ◌≤◌, length, drop};
ghost use Rattle.std.proofs.lemmas.List.Edits.{sets};
ghost use Rattle.format.specs.Kinds.{form_of, widths};
ghost use Rattle.format.specs.Fields.{little_endian};
ghost use Rattle.text.specs.Decimal.{value_of};
ghost use Rattle.text.specs.Parts.{space, split, first};
ghost use Rattle.spelling.specs.Spelling.{numbers_in, field_bytes, line_record, is_line_of};

use format::kinds::{MOST_FIELDS, field_width, is_known};
use lines::put_line;
use text::numbers::value;
use text::output::put;
use text::parts::{SPACE, first_part, is_same, rest_from};

// Puts the lowest bytes of a number, so many of them, the lowest first.
fn put_number(n: u32, width: u8, output: &mut [u8], at: usize)
    ensures { output.new ≡ sets output.old at (little_endian width n) }
{
    let mut rest = n;
    for i in 0..width {
        put(output, at, usize::from(i), (rest % 256) as u8);
        rest /= 256;
    }
}

// A number of a line modulo 2^32, and where the next one starts: at the line's end where there is none.
#[derive(Clone, Copy)]
struct Number {
    value: u32,
    next: usize,
}

// The number that starts at a place of a line.
fn number_from(line: &[u8], from: usize) -> Number
    requires { from ≤ length line.now }
    ensures value { result.value ≡ value_of (first (split space (drop from line.now))) % 2 ^ 32 }
    ensures next { drop result.next line.now ≡ drop (length (first (split space (drop from line.now))) + 1) (drop from line.now) }
    ensures within { result.next ≤ length line.now }
{
    let rest = rest_from(line, from);
    let digits = first_part(rest, SPACE);
    Number {
        value: value(digits),
        next: (from + digits.len() + 1).min(line.len()),
    }
}

// Puts the fields of a record of this kind after its first byte, from the numbers of a line from a place on; answers how many bytes the
// record has.
fn put_fields(kind: u8, line: &[u8], from: usize, output: &mut [u8]) -> usize
    requires { from ≤ length line.now }
    ensures put { output.new ≡ sets output.old 1 (field_bytes (widths (form_of kind)) (numbers_in (drop from line.now))) }
    ensures length { result ≡ 1 + length (field_bytes (widths (form_of kind)) (numbers_in (drop from line.now))) }
{
    let mut at = from;
    let mut size: usize = 1;
    for i in 0..MOST_FIELDS {
        let width = field_width(kind, i);
        if width == 0 {
            return size;
        }
        let number = number_from(line, at);
        put_number(number.value, width, output, size);
        at = number.next;
        size += usize::from(width);
    }
    size
}

// Puts the record that a line's numbers give, the lowest byte of the first being its kind, and answers how many bytes it has.
pub fn put_record(line: &[u8], output: &mut [u8]) -> usize
    ensures put { output.new ≡ sets output.old 0 (line_record line.now) }
    ensures length { result ≡ length (line_record line.now) }
    ensures few { result ≤ 128 }
{
    let first = number_from(line, 0);
    put_number(first.value, 1, output, 0);
    put_fields((first.value % 256) as u8, line, first.next, output)
}

// Whether a line is that of a record, and the record of a known kind.
pub fn is_line_of(bytes: &[u8], line: &[u8]) -> bool
    ensures { result ≡ is_line_of bytes.now line.now }
{
    if !is_known(readers::byte_at(bytes, 0)) {
        return false;
    }
    let mut expected = [0u8; 256];
    let n = put_line(bytes, 0, &mut expected, 0);
    is_same(&expected[..n], line)
}
