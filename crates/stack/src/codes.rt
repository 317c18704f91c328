// The codes of open blocks: a UIF before and after its ELSE, a loop, a SWITCH before and after its DEFAULT. A kind byte
// (`blocks::control`) is none of these.
pub const UIF: u8 = 0;

pub const ELSE: u8 = 1;

pub const LOOP: u8 = 2;

pub const SWITCH: u8 = 3;

pub const DEFAULTED: u8 = 4;
