// Runs a program file: tgsi_run PROGRAM [INPUTS [CONSTANTS]]. Memory is 16,384 words of 0 and the budget 200,000 steps.
// Standard output has the outcome alone, whatever the files are called, so that the installed command can go by its first word.
#![tactic(auto)]

use format::refusals::Refused;
use runner::Outcome;

mod complaints;
mod help;
mod outputs;
mod values;
mod word_files;

const BUDGET: u32 = 200000;

// The outcome, what a refusal or a halt means, and the outputs of a run.
fn tell(
    rt: &impl Print,
    outcome: Result<Outcome, Refused<u32>>,
    program: &[u8],
    registers: &[u32],
) {
    outcomes::outcome_line(rt, outcome);
    match outcome {
        Ok(Outcome::Ended(_)) => outputs::lines(rt, program, registers),
        Ok(Outcome::Halted(_, next)) => {
            let _ = println!(rt;
                "the budget of 200,000 steps is spent before END; instruction {next}, counted from 0, comes next"
            );
            outputs::lines(rt, program, registers);
        }
        Err(refused) => report::meaning_line(rt, refused.refusal),
    }
}

fn run(rt: &impl Print, program: &[u8], inputs: &[u32], constants: &[u32]) {
    let mut registers = [0u32; 1156];
    let mut work = [0u32; 3072];
    let mut memory = [0u32; 16384];
    let outcome = runner::run(
        program,
        inputs,
        constants,
        &mut registers,
        &mut work,
        &mut memory,
        BUDGET,
    );
    tell(rt, outcome, program, &registers);
}

// Reads the inputs and the constants, and runs.
fn run_with_words(rt: &HostRuntime, program: &[u8]) -> Option<()> {
    let mut inputs = [0u32; 128];
    let i = word_files::read_words(rt, 2, "inputs", &mut inputs)?;
    let mut constants = [0u32; 4096];
    let c = word_files::read_words(rt, 3, "constants", &mut constants)?;
    run(rt, program, &inputs[..i], &constants[..c]);
    Some(())
}

// Reads the program, one byte more than a file may have, and runs it. None: a file cannot be used.
fn run_named(rt: &HostRuntime) -> Option<()> {
    let mut program = [0u8; 65537];
    let n = files::read_bytes(rt, 1, b"program", &mut program)?;
    run_with_words(rt, &program[..n])
}

fn main(rt: HostRuntime) {
    files::run_or_help(&rt, 1..4, help::TEXT, run_named);
}
