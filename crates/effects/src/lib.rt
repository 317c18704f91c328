// What an instruction does with its sources, by its kind.
#![tactic(auto)]

pub mod effect;
