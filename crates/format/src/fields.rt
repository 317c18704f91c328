// Operands and declarations of a record, and what the modifier of a source says.
ghost use Rattle.std.specs.Prelude.{◌≡◌};
ghost use Rattle.format.specs.Fields.{negates, indirection};

// Where an instruction writes: a register, and the components that its mask has.
#[derive(Clone, Copy)]
pub struct Destination {
    pub file: u8,
    pub index: u16,
    pub mask: u8,
}

// What an instruction reads: a register, the component taken for each, and negate and indirect in the modifier.
#[derive(Clone, Copy)]
pub struct Source {
    pub file: u8,
    pub index: u16,
    pub swizzle: u8,
    pub modifier: u8,
}

// The registers of a file from first to last.
#[derive(Clone, Copy)]
pub struct Declaration {
    pub file: u8,
    pub first: u16,
    pub last: u16,
}

// Whether a source is negated.
pub fn negates(s: Source) -> bool
    ensures { result ≡ negates s }
{
    s.modifier % 2 == 1
}

// 1 to 4 where ADDR[0].x to .w is added to a source's index, 0 for none.
pub fn indirection(s: Source) -> u8
    ensures { result ≡ indirection s }
{
    s.modifier / 2
}
