// Carrying out a program that the check took, by the rows of its table, over what is lent.
#![tactic(auto)]

pub mod steps;

// What is told of the instructions that were carried out.
#[derive(Clone, Copy)]
pub struct Report {
    // How many there were.
    pub steps: u32,
}

// How a run stops.
#[derive(Clone, Copy)]
pub enum Stop {
    // END was carried out.
    Ended(Report),
    // The budget was spent, or rows that are no program's led past the last instruction that one can have; the next number.
    Halted(Report, usize),
}
