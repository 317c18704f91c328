// The parts of a text between its separators.
ghost use Rattle.std.specs.Prelude.{◌≡◌, length, drop};
ghost use Rattle.text.specs.Parts.{same, first, split, ended_length};

pub const SPACE: u8 = b' ';

pub const LINE_FEED: u8 = b'\n';

// The length of a text's first part: where the first separator stands, or the text's end.
pub fn part_length(bytes: &[u8], separator: u8) -> usize
    ensures { result ≡ length (first (split separator bytes.now)) }
{
    bytes
        .iter()
        .position(|byte| *byte == separator)
        .unwrap_or(bytes.len())
}

// A text's first part.
pub fn first_part(bytes: &[u8], separator: u8) -> &[u8]
    ensures { result.now ≡ first (split separator bytes.now) }
{
    let n = part_length(bytes, separator);
    &bytes[..n]
}

// How far a text goes up to its last separator, that among it: 0 where it has none.
pub fn ended_length(bytes: &[u8], separator: u8) -> usize
    ensures { result ≡ ended_length separator bytes.now }
{
    match bytes.iter().rposition(|byte| *byte == separator) {
        Some(last) => last + 1,
        None => 0,
    }
}

// What a text has from a place on, nothing past its end.
pub fn rest_from(bytes: &[u8], at: usize) -> &[u8]
    ensures { result.now ≡ drop at bytes.now }
{
    bytes.get(at..).unwrap_or(&[])
}

// Whether two texts are the same.
pub fn is_same(a: &[u8], b: &[u8]) -> bool
    ensures { result ≡ same a.now b.now }
{
    a == b
}
