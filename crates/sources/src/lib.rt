// Sources over lent words: the bank of what is lent to be read, and what one source reads of it and of the registers.
#![tactic(auto)]

pub mod bank;
pub mod operands;
pub mod parts;
