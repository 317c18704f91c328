// A run with so many lent words of each sort.
use format::refusals::Refused;
use runner::Outcome;

const BUDGET: u32 = 200000;

// How many words of each sort are lent.
#[derive(Clone, Copy)]
pub struct Lent {
    pub inputs: usize,
    pub constants: usize,
    pub registers: usize,
    pub work: usize,
    pub memory: usize,
}

// As many words as any program can ask for, and as much memory as a run takes.
pub const MOST: Lent = Lent {
    inputs: 128,
    constants: 4096,
    registers: 1156,
    work: 3072,
    memory: 16384,
};

// The first n words, or all of them where there are fewer.
fn first(words: &mut [u32], n: usize) -> &mut [u32] {
    let n = n.min(words.len());
    &mut words[..n]
}

// Runs a file over lent words that are all 0.
pub fn run(file: &[u8], lent: Lent) -> Result<Outcome, Refused<u32>> {
    let mut inputs = [0u32; 128];
    let mut constants = [0u32; 4096];
    let mut registers = [0u32; 1156];
    let mut work = [0u32; 3072];
    let mut memory = [0u32; 16385];
    runner::run(
        file,
        first(&mut inputs, lent.inputs),
        first(&mut constants, lent.constants),
        first(&mut registers, lent.registers),
        first(&mut work, lent.work),
        first(&mut memory, lent.memory),
        BUDGET,
    )
}
