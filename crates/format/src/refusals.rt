// The refusals, each with its number under its row (document 01, "Refusals by number"; document 02, W1).
ghost use Rattle.std.specs.Prelude.{◌≡◌, Some};
ghost use Rattle.format.specs.Refusals.{number_of, refusal_of, meaning_of};

use std::fmt;

// Why a file, a run or a text is refused.
#[derive(Clone, Copy, Debug, PartialEq, Eq)]
pub enum Refusal {
    // "file over 65,536 bytes (place 0, before all else)"
    TooLong = 1,

    // "a byte follows an END that no later row refuses (place of that byte)"
    ByteAfterEnd = 2,

    // "unknown kind"
    UnknownKind = 3,

    // "body runs past the file"
    BodyCut = 4,

    // "declaration or immediate after an instruction"
    LateDeclaration = 5,

    // "1,025th instruction or 257th immediate"
    TooMany = 6,

    // "a field rule broken"
    FieldRuleBroken = 7,

    // "declaration overlaps an earlier one of its file"
    Overlapping = 8,

    // "direct operand not declared, or no such immediate; indirect with ADDR or the whole file undeclared; memory kind without MEM"
    NotDeclared = 9,

    // "nesting broken"
    NestingBroken = 10,

    // "switch rule broken"
    SwitchRuleBroken = 11,

    // "a 17th open block"
    TooDeep = 12,

    // "file ends without END (place: file length)"
    NoEnd = 13,

    // "20-24: run only (preparing alone: 23 only), after all above, in order, place 0"

    // "inputs, constants shorter than 4·(highest declared+1) words, 0 if none is declared"
    InputsShort = 20,

    ConstantsShort = 21,

    // "registers under 1,156"
    RegistersShort = 22,

    // "working words under 3 per instruction"
    WorkingShort = 23,

    // "memory over 16,384 words"
    MemoryLong = 24,

    // "in reading, 30 malformed line (also an unknown kind or a number too large for its field; place: its first byte)" (document 02, W1)
    MalformedLine = 30,

    // "31 output short" (document 02, W1)
    OutputShort = 31,
}

impl Refusal {
    pub fn number(self) -> u8
        ensures { result ≡ number_of self }
    {
        self as u8
    }

    // The refusal that has a number, where there is one.
    pub fn of_number(number: u8) -> Option<Refusal>
        ensures { result ≡ refusal_of number }
    {
        match number {
            1 => Some(Refusal::TooLong),
            2 => Some(Refusal::ByteAfterEnd),
            3 => Some(Refusal::UnknownKind),
            4 => Some(Refusal::BodyCut),
            5 => Some(Refusal::LateDeclaration),
            6 => Some(Refusal::TooMany),
            7 => Some(Refusal::FieldRuleBroken),
            8 => Some(Refusal::Overlapping),
            9 => Some(Refusal::NotDeclared),
            10 => Some(Refusal::NestingBroken),
            11 => Some(Refusal::SwitchRuleBroken),
            12 => Some(Refusal::TooDeep),
            13 => Some(Refusal::NoEnd),
            20 => Some(Refusal::InputsShort),
            21 => Some(Refusal::ConstantsShort),
            22 => Some(Refusal::RegistersShort),
            23 => Some(Refusal::WorkingShort),
            24 => Some(Refusal::MemoryLong),
            30 => Some(Refusal::MalformedLine),
            31 => Some(Refusal::OutputShort),
            _ => None,
        }
    }
}

impl From<Refusal> for u8 {
    ghost from_gives = { λ refusal number. number ≡ number_of refusal };

    fn from(refusal: Refusal) -> u8 {
        refusal.number()
    }
}

// What a refusal says to a person, in the papers' words.
impl fmt::Display for Refusal {
    ghost output = { λ refusal. Some (meaning_of refusal) };

    fn fmt<W: fmt::Write>(&self, f: &mut fmt::Formatter<W>) -> fmt::Result {
        f.write_str(match self {
            Refusal::TooLong => "file over 65,536 bytes",
            Refusal::ByteAfterEnd => "a byte follows END",
            Refusal::UnknownKind => "unknown kind",
            Refusal::BodyCut => "body runs past the file",
            Refusal::LateDeclaration => "declaration or immediate after an instruction",
            Refusal::TooMany => "1,025th instruction or 257th immediate",
            Refusal::FieldRuleBroken => "a field rule broken",
            Refusal::Overlapping => "declaration overlaps an earlier one of its file",
            Refusal::NotDeclared =>
                "operand not declared, or no such immediate, or memory kind without MEM",
            Refusal::NestingBroken => "nesting broken",
            Refusal::SwitchRuleBroken => "switch rule broken",
            Refusal::TooDeep => "a 17th open block",
            Refusal::NoEnd => "file ends without END",
            Refusal::InputsShort => "inputs shorter than the program declares",
            Refusal::ConstantsShort => "constants shorter than the program declares",
            Refusal::RegistersShort => "registers under 1,156 words",
            Refusal::WorkingShort => "working words under 3 per instruction",
            Refusal::MemoryLong => "memory over 16,384 words",
            Refusal::MalformedLine =>
                "malformed line, also an unknown kind or a number too large for its field",
            Refusal::OutputShort => "output short",
        })
    }
}

// "A refusal returns its number and a byte place" (document 01): in a program file a u32, in a text a usize.
#[derive(Clone, Copy, Debug, PartialEq, Eq)]
pub struct Refused<P> {
    pub refusal: Refusal,
    pub place: P,
}

// Of a program file that a text gives, or that is written as one.
impl From<Refused<u32>> for Refused<usize> {
    ghost from_gives = { λ of_file refused. refused ≡ of_file };

    fn from(of_file: Refused<u32>) -> Refused<usize> {
        Refused {
            refusal: of_file.refusal,
            place: of_file.place as usize,
        }
    }
}
