// Preparing alone: a file is checked and its table written to the working words.
#![tactic(auto)]

ghost use Rattle.std.specs.Prelude.{◌≡◌};
ghost use Rattle.table.specs.Prepared.{filled};
ghost use Rattle.checker.specs.Check.{told};
ghost use Rattle.preparation.specs.Preparing.{prepare_after, prepare_of};

use blocks::ROW_WORDS;
use checker::examine;
use checker::program::Program;
use format::refusals::{Refusal, Refused};
use table::fill;

// Writes the table of a program to the working words; where it cannot be made they stay (`filled`).
pub fn write_table(file: &[u8], program: Program, work: &mut [u32])
    ensures { work.new ≡ filled file.now program.start program.instructions work.old }
{
    fill(
        file,
        program.start as usize,
        program.instructions as usize,
        work,
    );
}

// Checks a file and writes its table to the working words: that of so many instructions, or the first refusal due.
#[tactic(auto, using(crate::proofs::Preparing::prepare_short))]
pub fn prepare(file: &[u8], work: &mut [u32]) -> Result<u32, Refused<u32>>
    ensures { prepare_after (told result) work.new ≡ prepare_of file.now work.old }
{
    let mut immediates = [0u32; 1024];
    let program = examine(file, &mut immediates)?;
    if work.len() < ROW_WORDS * program.instructions as usize {
        return Err(Refused {
            refusal: Refusal::WorkingShort,
            place: 0,
        });
    }
    write_table(file, program, work);
    Ok(program.instructions)
}
