// Listings of programs: print, and read back (document 02, W1).
#![tactic(auto)]

ghost use Rattle.std.specs.Prelude.{◌≡◌, List, ℕ, take, length as size};
ghost use Rattle.format.specs.Records.{longest};
ghost use Rattle.checker.specs.Check.{check_of};
ghost use Rattle.text.specs.Output.{answered, wrote, written};
ghost use Rattle.listing.specs.Calls.{delivered_if, print_of, read_of};
ghost use Rattle.listing.specs.Reading.{spelled, bytes_of};
ghost use Rattle.listing.specs.Inner.Spelt.{Holds};

use format::records::LONGEST;
use format::refusals::{Refusal, Refused};
use readers::all_bytes;
use text::output::deliver;

mod pieces;
mod printing;
mod reading;

pub use pieces::{Piece, read_piece};

// Writes the listing of a program and answers its length, or writes nothing where the program is refused or the output is too short.
// "File to listing to file gives the same bytes": what was written is read as the file. That holds of bytes; `all_bytes` is called for
// its contract, that a lent file has nothing else.
pub fn print(file: &[u8], output: &mut [u8]) -> Result<usize, Refused<usize>>
    ensures printed { written (answered result) output.new ≡ print_of file.now output.old }
    ensures back { (n : ℕ) → answered result ≡ wrote n → bytes_of (take n output.new) ≡ spelled file.now }
{
    let answer = deliver_listing(file, output);
    all_bytes(file);
    answer
}

// The program's own refusal, or its listing.
#[tactic(auto, using(crate::proofs::Delivering::file_fits), unfolding(crate::specs::Calls::print_of))]
fn deliver_listing(file: &[u8], output: &mut [u8]) -> Result<usize, Refused<usize>>
    ensures { written (answered result) output.new ≡ print_of file.now output.old }
{
    checker::check(file)?;
    printing::deliver_lines(file, output)
}

// Writes the file that a listing gives and answers its length, or writes nothing where a line is malformed, the program is refused or
// the output is too short.
#[tactic(auto, unfolding(crate::specs::Calls::read_of))]
pub fn read(text: &[u8], output: &mut [u8]) -> Result<usize, Refused<usize>>
    ensures { written (answered result) output.new ≡ read_of text.now output.old }
{
    let mut file = [0u8; 65536];
    let length = reading::spell(text, &mut file)?;
    deliver_program(&file, length, output)
}

// Delivers the file of this length that stands at the start of an array, if it is not too long.
#[tactic(auto, using(crate::proofs::Delivering::program_long))]
fn deliver_program(file: &[u8], length: usize, output: &mut [u8]) -> Result<usize, Refused<usize>>
    requires { size file.now ≡ longest }
    ensures { (program : List ℕ) → Holds program length file.now → written (answered result) output.new ≡ delivered_if (check_of program) program output.old }
{
    if LONGEST < length {
        return Err(Refused {
            refusal: Refusal::TooLong,
            place: 0,
        });
    }
    let program = &file[..length];
    checker::check(program)?;
    deliver(program, output)
}
