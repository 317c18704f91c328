// Instructions over lent words: all sources of one, and the step that the run repeats.
#![tactic(auto)]

mod reading;
pub mod step;
