// The line of a run's outcome, on standard output. No contract can say what is written.
#![tactic(auto)]

use format::refusals::Refused;
use runner::Outcome;

// `ended STEPS`, `halted STEPS NEXT` or `refused NUMBER PLACE`
pub fn outcome_line(rt: &impl Print, outcome: Result<Outcome, Refused<u32>>)
    ensures { Unit {0} }
{
    match outcome {
        Ok(Outcome::Ended(told)) => {
            let _ = println!(rt; "ended {}", told.steps);
        }
        Ok(Outcome::Halted(told, next)) => {
            let _ = println!(rt; "halted {} {next}", told.steps);
        }
        Err(Refused { refusal, place }) => report::refusal_line(rt, refusal, place as u64),
    }
}
