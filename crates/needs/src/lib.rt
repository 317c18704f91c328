// What a run of a file asks its host for, before anything is lent: how many words of each, and what the program declares of
// OUT and MEM.
#![tactic(auto)]

ghost use Rattle.std.specs.Prelude.{◌≡◌, [], ◌*◌, ◌^◌};
ghost use Rattle.format.specs.Refusals.{number_of};
ghost use Rattle.words.specs.Word.{bit, sum};
ghost use Rattle.registers.specs.Sets.{is_in};
ghost use Rattle.checker.specs.Check.{program_seen};
ghost use Rattle.needs.specs.Needs.{outputs_in, memory_in, needed, denied, needs_of};
ghost use Rattle.needs.specs.Inner.Small.{Small};

use blocks::ROW_WORDS;
use checker::examine;
use checker::program::Program;
use format::files::MEM;
use format::refusals::Refused;
use registers::sets::{Declared, is_declared};

// Status 0: the file is a program, with the number of its instructions first and 0 second. Status 2: it is refused, with the
// refusal's number first and its place second, and all else 0. `work`, `inputs` and `constants` are how many words a run asks
// for, bit i of `outputs` is 1 where OUT[i] is declared, and `memory` is 1 where MEM is.
#[repr(C)]
#[derive(Clone, Copy)]
pub struct Needs {
    pub status: u32,
    pub first: u32,
    pub second: u32,
    pub instructions: u32,
    pub work: u32,
    pub inputs: u32,
    pub constants: u32,
    pub outputs: u32,
    pub memory: u32,
}

const DONE: u32 = 0;

const REFUSED: u32 = 2;

// A word is made of its bits. An argument is known to be a word of 32 bits, an array's element is not.
fn of_bits(word: u32) -> u32
    ensures { result ≡ sum 32 (λ i. bit word i * 2 ^ i) }
{
    word
}

// The declared OUT, one bit each.
#[tactic(auto, using(crate::proofs::Outputs::outputs_are))]
fn outputs_in(declared: Declared) -> u32
    ensures { result ≡ outputs_in (is_in declared) }
{
    of_bits(declared.outs[0])
}

// 1 where MEM is declared.
fn memory_in(declared: Declared) -> u32
    ensures { result ≡ memory_in (is_in declared) }
{
    u32::from(is_declared(declared, MEM, 0))
}

// Of a program that the check accepted.
#[tactic(auto, unfolding(crate::specs::Needs::needed))]
fn needed(program: Program) -> Needs
    requires { Small program }
    ensures { result ≡ needed (program_seen program [] []) }
{
    let declared = program.declared;
    let outputs = outputs_in(declared);
    let memory = memory_in(declared);
    Needs {
        status: DONE,
        first: program.instructions,
        second: 0,
        instructions: program.instructions,
        work: ROW_WORDS as u32 * program.instructions,
        inputs: 4 * program.inputs,
        constants: 4 * program.constants,
        outputs,
        memory,
    }
}

// Of a file that is refused.
fn denied(refused: Refused<u32>) -> Needs
    ensures { result ≡ denied (number_of refused.refusal) refused.place }
{
    Needs {
        status: REFUSED,
        first: refused.refusal.number() as u32,
        second: refused.place,
        instructions: 0,
        work: 0,
        inputs: 0,
        constants: 0,
        outputs: 0,
        memory: 0,
    }
}

// What a run of a file needs, or the first refusal due.
#[tactic(auto, using(crate::proofs::Answering::file_small, crate::proofs::Answering::file_needs))]
pub fn needs_of(file: &[u8]) -> Needs
    ensures { result ≡ needs_of file.now }
{
    let mut immediates = [0u32; 1024];
    match examine(file, &mut immediates) {
        Ok(program) => needed(program),
        Err(refused) => denied(refused),
    }
}
