// Kinds of records: how long the body of each is, and which operands it has.
ghost use Rattle.std.specs.Prelude.{◌≡◌, get_or};
ghost use Rattle.format.specs.Kinds.{length_of, is_known, form_of, destinations, sources, first_source, widths, declaration, immediate, instruction};

// What the table holds for an unknown kind.
pub const UNKNOWN: u8 = 255;

// "Body length comes from a table of 256 entries, one per kind byte, unknown kinds marked." In the order of the kinds, from 0.
const LENGTHS: [u8; 256] = [
    255, 5, 16, 255, 255, 255, 255, 255, 255, 255, 255, 255, 255, 255, 255, 255, 9, 9, 9, 9, 9, 9,
    9, 9, 9, 9, 9, 9, 9, 9, 9, 255, 14, 14, 14, 14, 14, 14, 14, 14, 14, 14, 14, 14, 14, 14, 14, 14,
    14, 14, 14, 14, 14, 14, 14, 14, 255, 255, 255, 255, 255, 255, 255, 255, 14, 14, 14, 14, 14, 14,
    14, 14, 14, 14, 14, 14, 14, 14, 14, 14, 14, 14, 14, 255, 255, 255, 14, 14, 14, 14, 14, 14, 14,
    14, 14, 14, 19, 19, 19, 19, 19, 255, 255, 255, 255, 255, 255, 255, 255, 255, 255, 255, 24, 255,
    255, 255, 255, 255, 255, 255, 255, 255, 255, 255, 255, 255, 255, 255, 0, 0, 0, 0, 0, 0, 0, 0,
    0, 0, 255, 255, 255, 255, 255, 255, 5, 5, 5, 255, 255, 255, 255, 255, 255, 255, 255, 255, 255,
    255, 255, 255, 255, 255, 255, 255, 255, 255, 255, 255, 255, 255, 255, 255, 255, 255, 255, 255,
    255, 255, 255, 255, 255, 255, 255, 255, 255, 255, 255, 255, 255, 255, 255, 255, 255, 255, 255,
    255, 255, 255, 255, 255, 255, 255, 255, 255, 255, 255, 255, 255, 255, 255, 255, 255, 255, 255,
    255, 255, 255, 255, 255, 255, 255, 255, 255, 255, 255, 255, 255, 255, 255, 255, 255, 255, 255,
    255, 255, 255, 255, 255, 255, 255, 255, 255, 255, 255, 255, 255, 255, 255, 255, 255, 255, 255,
    255, 255, 255, 255,
];

// The length of the body of a record of this kind, UNKNOWN where there is no such kind.
pub fn body_length(kind: u8) -> u8
    ensures { result ≡ length_of kind }
{
    LENGTHS[kind as usize]
}

// Whether there is such a kind. It is asked of every line of a listing, where the table would be laid out anew each time.
#[tactic(auto, unfolding(crate::specs::Kinds::length_of))]
pub fn is_known(kind: u8) -> bool
    ensures { result ≡ is_known kind }
{
    match kind {
        0x01..=0x02
        | 0x10..=0x1e
        | 0x20..=0x37
        | 0x40..=0x52
        | 0x56..=0x64
        | 0x70
        | 0x80..=0x89
        | 0x90..=0x92 => true,
        _ => false,
    }
}

// How many destinations instructions of a kind have.
pub fn destinations_of(kind: u8) -> u8
    ensures { result ≡ destinations (form_of kind) }
{
    match kind {
        0x10..=0x1e | 0x20..=0x37 | 0x40..=0x52 | 0x56..=0x5f | 0x60..=0x64 | 0x70 => 1,
        _ => 0,
    }
}

// How many sources.
pub fn sources_of(kind: u8) -> u8
    ensures { result ≡ sources (form_of kind) }
{
    match kind {
        0x10..=0x1e | 0x90..=0x92 => 1,
        0x20..=0x37 | 0x40..=0x52 | 0x56..=0x5f => 2,
        0x60..=0x64 => 3,
        0x70 => 4,
        _ => 0,
    }
}

// Where the first source of a record of this kind stands, counted from the record's first byte; each has five bytes.
pub fn first_source(kind: u8) -> u8
    ensures { result ≡ first_source kind }
{
    1 + 4 * destinations_of(kind)
}

// "declaration: file 1, first 2, last 2"
fn declaration_width(i: u8) -> u8
    ensures { result ≡ get_or (widths declaration) i 0 }
{
    match i {
        0 => 1,
        1 => 2,
        2 => 2,
        _ => 0,
    }
}

// "immediate: four words"
fn immediate_width(i: u8) -> u8
    ensures { result ≡ get_or (widths immediate) i 0 }
{
    if i < 4 { 4 } else { 0 }
}

// "file 1, index 2, mask 1" and "file 1, index 2, swizzle 1 .., modifier 1": only the index has two bytes.
#[tactic(auto, using(crate::proofs::FieldWidths::operand_fields))]
fn operand_width(destinations: u8, sources: u8, i: u8) -> u8
    ensures { result ≡ get_or (widths (instruction destinations sources)) i 0 }
{
    let field = i as u16;
    let sources_from = 3 * destinations as u16;
    if field < sources_from {
        return if field % 3 == 1 { 2 } else { 1 };
    }
    if field - sources_from < 4 * sources as u16 {
        return if (field - sources_from) % 4 == 1 {
            2
        } else {
            1
        };
    }
    0
}

// As many fields as a record may have: BFI has 19.
pub const MOST_FIELDS: u8 = 19;

// How many bytes field i of a record of this kind has, counted from 0 after the kind; 0 past the last.
pub fn field_width(kind: u8, i: u8) -> u8
    ensures { result ≡ get_or (widths (form_of kind)) i 0 }
{
    match kind {
        1 => declaration_width(i),
        2 => immediate_width(i),
        _ => operand_width(destinations_of(kind), sources_of(kind), i),
    }
}
