// The C interface. A slice goes as a pointer and a length; each function hands the call on and puts the library's answer into
// words. `include/ropebonnet.h` declares the functions for C.
#![tactic(auto)]

ghost use Rattle.std.specs.Prelude.{◌≡◌, ◌≤◌};
ghost use Rattle.format.specs.Records.{bounds_of};
ghost use Rattle.blocks.specs.Table.{row_words};
ghost use Rattle.checker.specs.Check.{check_of, told_of};
ghost use Rattle.needs.specs.Needs.{needs_of};
ghost use Rattle.preparation.specs.Preparing.{prepare_of};
ghost use Rattle.runner.specs.Answers.{lent};
ghost use Rattle.runner.specs.Whole.{run_of};
ghost use Rattle.listing.specs.Calls.{print_of, read_of};
ghost use Rattle.answers.specs.Words.{told_words, steps_in, after_preparing, after_run, after_filling, preparation_in_words, result_in_words, written_in_words, part_of};
ghost use Rattle.ropebonnet.specs.Version.{version};

use answers::{Answer, Part};
use blocks::ROW_WORDS;
use needs::{Needs, needs_of};

const VERSION: u32 = 10100;

// Whether a file follows the rules.
#[unsafe(no_mangle)]
pub extern "C" fn ropebonnet_check(file: &[u8]) -> Answer
    ensures { result ≡ told_words (told_of (check_of file.now)) }
{
    Answer::from(runner::check(file))
}

// Checks a file and puts its table into the working words.
#[unsafe(no_mangle)]
pub extern "C" fn ropebonnet_prepare(file: &[u8], work: &mut [u32]) -> Answer
    ensures { after_preparing result work.new ≡ preparation_in_words (prepare_of file.now work.old) }
{
    Answer::from(runner::prepare(file, work))
}

// Checks, prepares and runs a file within a budget of steps.
#[unsafe(no_mangle)]
pub extern "C" fn ropebonnet_run(
    file: &[u8],
    inputs: &[u32],
    constants: &[u32],
    registers: &mut [u32],
    work: &mut [u32],
    memory: &mut [u32],
    budget: u32,
) -> Answer
    ensures whole { after_run result (lent registers.new work.new memory.new) ≡ result_in_words (run_of file.now inputs.now constants.now (lent registers.old work.old memory.old) budget) }
    ensures status { result.status ≤ 2 }
    ensures within { steps_in result ≤ budget }
{
    Answer::from(runner::run(file, inputs, constants, registers, work, memory, budget))
}

// Where record n lies in the file: no bytes at the file's end where there is no such record.
#[unsafe(no_mangle)]
pub extern "C" fn ropebonnet_record(file: &[u8], n: usize) -> Part
    ensures { result ≡ part_of (bounds_of file.now n) }
{
    Part::from(runner::record_bounds(file, n))
}

// What a run of a file needs to be lent, and what it declares of OUT and MEM.
#[unsafe(no_mangle)]
pub extern "C" fn ropebonnet_needs(file: &[u8]) -> Needs
    ensures { result ≡ needs_of file.now }
{
    needs_of(file)
}

// Writes the listing of a program.
#[unsafe(no_mangle)]
pub extern "C" fn ropebonnet_print(file: &[u8], output: &mut [u8]) -> Answer
    ensures { after_filling result output.new ≡ written_in_words (print_of file.now output.old) }
{
    Answer::from(listing::print(file, output))
}

// Writes the program file that a listing gives.
#[unsafe(no_mangle)]
pub extern "C" fn ropebonnet_read(text: &[u8], output: &mut [u8]) -> Answer
    ensures { after_filling result output.new ≡ written_in_words (read_of text.now output.old) }
{
    Answer::from(listing::read(text, output))
}

// The library's version, which a host compares with its header's.
#[unsafe(no_mangle)]
pub extern "C" fn ropebonnet_version() -> u32
    ensures { result ≡ version }
{
    VERSION
}

// Words of a row of the table.
#[unsafe(no_mangle)]
pub extern "C" fn ropebonnet_row_words() -> u32
    ensures { result ≡ row_words }
{
    ROW_WORDS as u32
}
