// The control instructions by their kinds: which ones end a list, open a block, or are labels.
#![tactic(auto, unfolding(crate::specs::Control::op_of))]

ghost use Rattle.std.specs.Prelude.{◌≡◌};
ghost use Rattle.blocks.specs.Control.{closes, is_label, op_of};
ghost use Rattle.blocks.specs.Nesting.{opens};

// The kinds of the control instructions.
pub const ELSE: u8 = 0x81;

pub const ENDIF: u8 = 0x82;

pub const BGNLOOP: u8 = 0x83;

pub const ENDLOOP: u8 = 0x84;

pub const BRK: u8 = 0x85;

pub const CONT: u8 = 0x86;

pub const DEFAULT: u8 = 0x87;

pub const ENDSWITCH: u8 = 0x88;

pub const END: u8 = 0x89;

pub const UIF: u8 = 0x90;

pub const SWITCH: u8 = 0x91;

pub const CASE: u8 = 0x92;

// Whether a kind is a mark that ends its list: ELSE, ENDIF, ENDLOOP, ENDSWITCH, END.
pub fn is_last(kind: u8) -> bool
    ensures { result ≡ closes (op_of kind) }
{
    matches!(kind, ELSE | ENDIF | ENDLOOP | ENDSWITCH | END)
}

// Whether a kind opens a block: BGNLOOP, UIF, SWITCH.
pub fn is_opening(kind: u8) -> bool
    ensures { result ≡ opens (op_of kind) }
{
    matches!(kind, BGNLOOP | UIF | SWITCH)
}

// Whether a kind is a label: DEFAULT, CASE.
pub fn is_label(kind: u8) -> bool
    ensures { result ≡ is_label (op_of kind) }
{
    matches!(kind, DEFAULT | CASE)
}
