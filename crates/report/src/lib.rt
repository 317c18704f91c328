// The lines of a refusal, on standard output. No contract can say what is written. A write that fails is not told, since there is no other
// place for it.
#![tactic(auto)]

ghost use Rattle.std.specs.Prelude.{◌≡◌, ◌≢◌, ℕ, Result, Ok, MatchOption};

use format::refusals::{Refusal, Refused};

// `refused NUMBER PLACE`, of a refusal or of any number.
pub fn refusal_line(rt: &impl Print, number: impl Into<u8>, place: u64)
    ensures { Unit {0} }
{
    let number: u8 = number.into();
    let _ = println!(rt; "refused {number} {place}");
}

// What a refusal says.
pub fn meaning_line(rt: &impl Print, number: impl Into<u8>)
    ensures { Unit {0} }
{
    let _ = match Refusal::of_number(number.into()) {
        Some(refusal) => println!(rt; "{refusal}"),
        None => println!(rt; "no such refusal"),
    };
}

// Both lines.
pub fn refusal_lines(rt: &impl Print, number: impl Into<u8>, place: u64)
    ensures { Unit {0} }
{
    let number: u8 = number.into();
    refusal_line(rt, number, place);
    meaning_line(rt, number);
}

// How many bytes were written, or none after the lines of a refusal.
pub fn wrote_or_refused(rt: &impl Print, answer: Result<usize, Refused<usize>>) -> Option<usize>
    ensures { MatchOption result ((n : ℕ) → answer ≢ Ok n) (λ n. answer ≡ Ok n) }
{
    match answer {
        Ok(n) => Some(n),
        Err(Refused { refusal, place }) => {
            refusal_lines(rt, refusal, place as u64);
            None
        }
    }
}
