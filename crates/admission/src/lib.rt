// Whether a file may be run over what is lent, by lengths alone: the refusals of the check, and after them those for what is lent.
#![tactic(auto)]

ghost use Rattle.std.specs.Prelude.{◌≡◌, []};
ghost use Rattle.format.specs.Refusals.{number_due};
ghost use Rattle.checker.specs.Check.{program_seen, examined_as, examined};
ghost use Rattle.admission.specs.Admission.{lent_refusal, admission_of};

use blocks::ROW_WORDS;
use checker::examine;
use checker::program::Program;
use format::files::REGISTER_WORDS;
use format::refusals::{Refusal, Refused};

const MOST_MEMORY_WORDS: usize = 16384;

// How many words are lent of each.
#[derive(Clone, Copy)]
pub struct Sizes {
    pub inputs: usize,
    pub constants: usize,
    pub registers: usize,
    pub work: usize,
    pub memory: usize,
}

// Refuses what is lent for a program with the first of 20 to 24 that is due.
#[tactic(auto, unfolding(crate::specs::Admission::lent_refusal))]
fn lent_refusal(program: Program, sizes: Sizes) -> Result<(), Refusal>
    ensures { number_due result ≡ lent_refusal (program_seen program [] []) sizes }
{
    if sizes.inputs < 4 * program.inputs as usize {
        Err(Refusal::InputsShort)
    } else if sizes.constants < 4 * program.constants as usize {
        Err(Refusal::ConstantsShort)
    } else if sizes.registers < REGISTER_WORDS {
        Err(Refusal::RegistersShort)
    } else if sizes.work < ROW_WORDS * program.instructions as usize {
        Err(Refusal::WorkingShort)
    } else if MOST_MEMORY_WORDS < sizes.memory {
        Err(Refusal::MemoryLong)
    } else {
        Ok(())
    }
}

// What the check says of a file, and the refusal for what is lent where it is accepted. The immediates' words are lent out where the
// program is admitted; after a refusal the lent words stay.
#[tactic(auto, using(crate::proofs::Admitting::lent_refuses, crate::proofs::Admitting::admits))]
pub fn admit(
    file: &[u8],
    sizes: Sizes,
    immediates: &mut [u32; 1024],
) -> Result<Program, Refused<u32>>
    ensures { examined_as result immediates.new ≡ examined (admission_of file.now sizes) immediates.old }
{
    let mut words = [0u32; 1024];
    let program = examine(file, &mut words)?;
    if let Err(refusal) = lent_refusal(program, sizes) {
        return Err(Refused { refusal, place: 0 });
    }
    *immediates = words;
    Ok(program)
}
