// What the checker keeps of a program, after a declaration and after an immediate.
ghost use Rattle.std.specs.Prelude.{◌≡◌, true, List, [], ℕ, ◌+◌, ◌<◌, ◌≤◌, set};
ghost use Rattle.std.proofs.lemmas.List.Edits.{sets};
ghost use Rattle.format.specs.Records.{size_at};
ghost use Rattle.format.specs.Fields.{word32};
ghost use Rattle.blocks.specs.Nesting.{Open};
ghost use Rattle.registers.specs.Rules.{declaration_rule};
ghost use Rattle.checker.specs.Findings.{nothing, reach, with_declaration, immediate_at, with_immediate};
ghost use Rattle.checker.specs.Check.{program_seen};
ghost use Rattle.checker.specs.Inner.Held.{Padded};

use crate::program::Program;
use format::fields::Declaration;
use format::files::{CONST, IN};
use registers::sets;

// A program of which nothing has been seen.
pub fn unseen() -> Program
    ensures seen { (words : List ℕ) → program_seen result words [] ≡ nothing }
    ensures counts { (result.immediates ≡ 0) × (result.instructions ≡ 0) }
{
    let declared = sets::empty();
    Program {
        declared,
        immediates: 0,
        inputs: 0,
        constants: 0,
        start: 0,
        instructions: 0,
    }
}

// One more than the highest declared register of a file, after a declaration.
fn reach_of(file: u8, d: Declaration, before: u32) -> u32
    ensures { result ≡ reach file d before }
{
    if d.file != file {
        return before;
    }
    before.max(d.last as u32 + 1)
}

// The program with a declaration more, which is followed by the place `next`.
#[tactic(auto, unfolding(crate::specs::Findings::with_declaration))]
pub fn with_declaration(p: Program, d: Declaration, next: usize) -> Program
    requires { (declaration_rule d ≡ true) × (next ≤ 65536) }
    ensures seen { (words : List ℕ) (blocks : List Open) → program_seen result words blocks ≡ with_declaration (program_seen p words blocks) d next }
    ensures counts { (result.immediates ≡ p.immediates) × (result.instructions ≡ p.instructions) }
{
    Program {
        declared: sets::declare(p.declared, d),
        inputs: reach_of(IN, d, p.inputs),
        constants: reach_of(CONST, d, p.constants),
        start: next as u32,
        ..p
    }
}

// Writes the word that stands at a place of the file, as word n.
fn put_word(words: &mut [u32; 1024], n: usize, file: &[u8], at: usize)
    requires { n < 1024 }
    ensures { words.new ≡ set words.old n (word32 file.now at) }
{
    words[n] = readers::u32_at(file, at);
}

// Writes the four words that stand at a place of the file, from word n on.
fn put_immediate(words: &mut [u32; 1024], n: usize, file: &[u8], at: usize)
    requires { (n + 4 ≤ 1024) × (at ≤ 100000) }
    ensures { words.new ≡ sets words.old n (immediate_at file.now at) }
{
    put_word(words, n, file, at);
    put_word(words, n + 1, file, at + 4);
    put_word(words, n + 2, file, at + 8);
    put_word(words, n + 3, file, at + 12);
}

// The program with the immediate at a place more, which is followed by the place `next`.
#[tactic(auto, using(crate::proofs::Keeping::kept_immediate, crate::proofs::Keeping::padded_after))]
pub fn with_immediate(
    p: Program,
    file: &[u8],
    at: usize,
    next: usize,
    words: &mut [u32; 1024],
) -> Program
    requires { (at ≤ 65536) × (next ≤ 65536) × (next ≡ at + size_at file.now at) × (p.immediates < 256) × Padded p.immediates words.old }
    ensures seen { (blocks : List Open) → program_seen result words.new blocks ≡ with_immediate (program_seen p words.old blocks) file.now at }
    ensures padded { Padded result.immediates words.new }
    ensures counts { (result.immediates ≡ p.immediates + 1) × (result.instructions ≡ p.instructions) }
{
    put_immediate(words, 4 * p.immediates as usize, file, at + 1);
    let mut q = p;
    q.immediates = p.immediates + 1;
    q.start = next as u32;
    q
}
