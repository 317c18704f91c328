// Texts: decimal numbers, the parts between separators, and outputs that a caller lends.
#![tactic(auto)]

pub mod numbers;
pub mod output;
pub mod parts;
