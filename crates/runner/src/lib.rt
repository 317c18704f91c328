// Runs of program files: check, prepare, clear, carry out. Nobody has to check first, and nothing is asked of what is lent.
#![tactic(auto)]

ghost use Rattle.std.specs.Prelude.{◌≡◌, ◌≤◌, Ok};
ghost use Rattle.runner.specs.Answers.{run_answer, lent, after, steps_of};
ghost use Rattle.runner.specs.Whole.{run_of};
ghost use Rattle.runner.specs.Inner.Stops.{Near, stop_answer};

use admission::{Sizes, admit};
pub use checker::check;
pub use execution::Report;
use execution::Stop;
pub use format::refusals::{Refusal, Refused};
pub use preparation::prepare;
pub use records::{record, record_bounds};
use running::carry_out_program;

// How a run that is not refused stops.
#[derive(Clone, Copy)]
pub enum Outcome {
    // END was carried out.
    Ended(Report),
    // The budget was spent; the next instruction's number.
    Halted(Report, u32),
}

// How a program that was carried out is answered for.
fn answered(stop: Stop) -> Outcome
    requires { Near stop }
    ensures { run_answer (Ok result) ≡ stop_answer stop }
{
    match stop {
        Stop::Ended(report) => Outcome::Ended(report),
        Stop::Halted(report, next) => Outcome::Halted(report, next as u32),
    }
}

// Checks a file, prepares it, clears the registers and carries out its instructions until END or until the budget is spent.
pub fn run(
    file: &[u8],
    inputs: &[u32],
    constants: &[u32],
    registers: &mut [u32],
    work: &mut [u32],
    memory: &mut [u32],
    budget: u32,
) -> Result<Outcome, Refused<u32>>
    ensures whole { after (run_answer result) (lent registers.new work.new memory.new) ≡ run_of file.now inputs.now constants.now (lent registers.old work.old memory.old) budget }
    ensures within { steps_of (run_answer result) ≤ budget }
{
    let mut immediates = [0u32; 1024];
    let sizes = Sizes {
        inputs: inputs.len(),
        constants: constants.len(),
        registers: registers.len(),
        work: work.len(),
        memory: memory.len(),
    };
    let program = admit(file, sizes, &mut immediates)?;
    let stop = carry_out_program(
        file,
        program,
        &immediates,
        inputs,
        constants,
        registers,
        work,
        memory,
        budget,
    );
    Ok(answered(stop))
}
