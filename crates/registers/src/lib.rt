// The registers of a program (document 01, "Register files"): which a declaration may name, and which are declared. Crate
// `operands` has which an instruction's operands may name; specs/ says it of both crates.
#![tactic(auto)]

pub mod sets;
