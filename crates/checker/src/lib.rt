// The checker of program files: the refusals 1 to 13 of document 01.
#![tactic(auto)]

ghost use Rattle.std.specs.Prelude.{◌≡◌};
ghost use Rattle.checker.specs.Check.{check_of, told, told_of, examined_as, examined};

use format::refusals::Refused;
use program::Program;

mod kept;
pub mod program;
mod walk;

// How many instructions a file has that follows the rules, or the first refusal due.
pub fn check(file: &[u8]) -> Result<u32, Refused<u32>>
    ensures { told result ≡ told_of (check_of file.now) }
{
    let mut words = [0u32; 1024];
    let mut values = [0u32; 1024];
    let mut links = [0u16; 2048];
    Ok(walk::walk(file, &mut words, &mut values, &mut links)?.instructions)
}

// The same with what a run needs of an accepted program, whose immediates' words are lent out, in order, and 0 after them. Where
// it is refused the lent words stay.
#[tactic(auto, using(crate::proofs::Examining::examined_accepted, crate::proofs::Examining::examined_refused))]
pub fn examine(file: &[u8], immediates: &mut [u32; 1024]) -> Result<Program, Refused<u32>>
    ensures { examined_as result immediates.new ≡ examined (check_of file.now) immediates.old }
{
    let mut words = [0u32; 1024];
    let mut values = [0u32; 1024];
    let mut links = [0u16; 2048];
    let program = walk::walk(file, &mut words, &mut values, &mut links)?;
    *immediates = words;
    Ok(program)
}
