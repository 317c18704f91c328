// Structured control: the nested lists of a program, how they are read, the table of its jumps and labels, and the run by it.
#![tactic(auto)]

pub mod control;

// Words of a row: byte place, jump, label.
pub const ROW_WORDS: usize = 3;

// No program has more.
pub const MOST_INSTRUCTIONS: usize = 1024;

// Where an instruction of a list goes: BRK; CONT and ENDLOOP; ELSE.
#[derive(Clone, Copy)]
pub struct Targets {
    pub brk: usize,
    pub cont: usize,
    pub after: usize,
}
