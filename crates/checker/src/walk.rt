// The walk over the records: each is taken, or refused with the lowest number that applies.
ghost use Rattle.std.specs.Prelude.{◌≡◌, List, ℕ, ◌+◌, ◌*◌, ◌<◌, ◌≤◌, [], length, take, IfOk};
ghost use Rattle.format.specs.Records.{size_at};
ghost use Rattle.format.specs.Fields.{case_word};
ghost use Rattle.format.specs.Refusals.{number_due};
ghost use Rattle.blocks.specs.Control.{op_of};
ghost use Rattle.blocks.specs.Nesting.{rule};
ghost use Rattle.checker.specs.Findings.{nothing, nested, declaration_finding, immediate_finding, instruction_finding, record_finding};
ghost use Rattle.checker.specs.Check.{program_seen, check_of};
ghost use Rattle.nesting.specs.Inner.Held.{blocks_of, Trees};
ghost use Rattle.checker.specs.Inner.Held.{outcome, seen, finding_of, operand_refusal, ended, Sound, Padded, Stands};

use crate::kept;
use crate::program::Program;
use blocks::MOST_INSTRUCTIONS;
use blocks::control::END;
use format::refusals::{Refusal, Refused};
use registers::sets;
use stack::Blocks;

// What the checker knows after some records.
#[derive(Clone, Copy)]
pub struct State {
    pub program: Program,
    pub blocks: Blocks,
}

const MOST_IMMEDIATES: u32 = 256;

// The state after the declaration at a place, which is followed by the place `next`.
#[tactic(auto, unfolding(crate::specs::Findings::declaration_finding, crate::specs::Inner::Held::seen), using(crate::proofs::Taking::stands_declaration))]
fn declaration(s: State, file: &[u8], at: usize, next: usize) -> Result<State, Refusal>
    requires { Sound s × (at ≤ 65536) × (next ≤ 65536) × (next ≡ at + size_at file.now at) }
    ensures found { (words values : List ℕ) → finding_of result words values ≡ declaration_finding (seen s words values) file.now at }
    ensures stands { (words values links : List ℕ) → Stands s words values links → IfOk result (λ t. Stands t words values links) }
{
    let p = s.program;
    if 0 < p.instructions {
        return Err(Refusal::LateDeclaration);
    }
    let d = readers::declaration_at(file, at + 1);
    if !sets::declaration_allowed(d) {
        return Err(Refusal::FieldRuleBroken);
    }
    if sets::overlaps(p.declared, d) {
        return Err(Refusal::Overlapping);
    }
    let program = kept::with_declaration(p, d, next);
    Ok(State {
        program,
        blocks: s.blocks,
    })
}

// The state after the immediate at a place, which is followed by the place `next`.
#[tactic(auto, unfolding(crate::specs::Findings::immediate_finding, crate::specs::Inner::Held::seen), using(crate::proofs::Taking::immediate_steps))]
fn immediate(
    s: State,
    file: &[u8],
    at: usize,
    next: usize,
    words: &mut [u32; 1024],
) -> Result<State, Refusal>
    requires { Sound s × (at ≤ 65536) × (next ≤ 65536) × (next ≡ at + size_at file.now at) × Padded s.program.immediates words.old }
    ensures found { (values : List ℕ) → finding_of result words.new values ≡ immediate_finding (seen s words.old values) file.now at }
    ensures stands { (values links : List ℕ) → Stands s words.old values links → IfOk result (λ t. Stands t words.new values links) }
{
    let p = s.program;
    if 0 < p.instructions {
        return Err(Refusal::LateDeclaration);
    }
    if MOST_IMMEDIATES <= p.immediates {
        return Err(Refusal::TooMany);
    }
    let program = kept::with_immediate(p, file, at, next, words);
    Ok(State {
        program,
        blocks: s.blocks,
    })
}

// Refuses an instruction of a kind at a place with the lowest of 6, 7 and 9 that applies.
#[tactic(auto, unfolding(crate::specs::Inner::Held::operand_refusal))]
fn operand_refusal(p: Program, kind: u8, file: &[u8], at: u32) -> Result<(), Refusal>
    requires { p.immediates ≤ 256 }
    ensures { number_due result ≡ operand_refusal p kind file.now at }
{
    if MOST_INSTRUCTIONS <= p.instructions as usize {
        return Err(Refusal::TooMany);
    }
    if !operands::rules_kept(kind, file, at) {
        return Err(Refusal::FieldRuleBroken);
    }
    if !operands::operands_found(kind, p.declared, 4 * p.immediates as usize, file, at) {
        return Err(Refusal::NotDeclared);
    }
    Ok(())
}

// The word of the CASE at a place, of n immediates that stand first among the words.
#[tactic(auto, using(crate::proofs::Taking::words_counted))]
fn word_of(n: u32, words: &[u32], file: &[u8], at: usize) -> u32
    requires { (n ≤ 256) × Padded n words.now }
    ensures { result ≡ case_word (take (4 * n) words.now) file.now at }
{
    let end = 4 * n as usize;
    readers::case_word(&words[..end], file, at)
}

// The state after an instruction of a kind to which none of 6, 7 and 9 applies; for a CASE x is its word.
#[tactic(auto, using(crate::proofs::Taking::nested_due, crate::proofs::Taking::nested_taken, crate::proofs::Taking::nested_stands))]
fn nested_instruction(
    s: State,
    values: &mut [u32; 1024],
    links: &mut [u16; 2048],
    kind: u8,
    x: u32,
) -> Result<State, Refusal>
    requires { Sound s × (s.program.instructions < 1024) × Trees s.blocks values.old links.old }
    ensures found { (words : List ℕ) → finding_of result words values.new ≡ nested (seen s words values.old) (rule (op_of kind) x (blocks_of s.blocks values.old)) }
    ensures stands { (words : List ℕ) → Stands s words values.old links.old → IfOk result (λ t. Stands t words values.new links.new) }
{
    let blocks = nesting::nest(s.blocks, values, links, kind, x)?;
    let mut program = s.program;
    program.instructions += 1;
    Ok(State { program, blocks })
}

// The state after the instruction at a place.
#[tactic(auto, using(crate::proofs::Taking::room_left, crate::proofs::Taking::refused_operands, crate::proofs::Taking::nested_found))]
fn instruction(
    s: State,
    file: &[u8],
    at: usize,
    words: &[u32; 1024],
    values: &mut [u32; 1024],
    links: &mut [u16; 2048],
) -> Result<State, Refusal>
    requires { Stands s words.now values.old links.old × (at ≤ 65536) }
    ensures found { finding_of result words.now values.new ≡ instruction_finding (seen s words.now values.old) file.now at }
    ensures stands { IfOk result (λ t. Stands t words.now values.new links.new) }
{
    let kind = readers::byte_at(file, at);
    operand_refusal(s.program, kind, file, at as u32)?;
    let word = word_of(s.program.immediates, words, file, at);
    nested_instruction(s, values, links, kind, word)
}

// The state after the record at a place, which is followed by the place `next`: by the same place where it is cut.
#[tactic(auto, unfolding(crate::specs::Findings::record_finding), using(crate::proofs::Taking::next_small))]
fn record(
    s: State,
    file: &[u8],
    at: usize,
    next: usize,
    words: &mut [u32; 1024],
    values: &mut [u32; 1024],
    links: &mut [u16; 2048],
) -> Result<State, Refusal>
    requires { Stands s words.old values.old links.old × (at ≤ length file.now) × (length file.now ≤ 65536) × (next ≡ at + size_at file.now at) }
    ensures found { finding_of result words.new values.new ≡ record_finding (seen s words.old values.old) file.now at }
    ensures stands { IfOk result (λ t. Stands t words.new values.new links.new) }
{
    let kind = readers::byte_at(file, at);
    if format::kinds::body_length(kind) == format::kinds::UNKNOWN {
        return Err(Refusal::UnknownKind);
    }
    if next == at {
        return Err(Refusal::BodyCut);
    }
    match kind {
        1 => declaration(s, file, at, next),
        2 => immediate(s, file, at, next, words),
        _ => instruction(s, file, at, words, values, links),
    }
}

// Nothing has been seen.
#[tactic(auto, unfolding(crate::specs::Inner::Held::seen), using(crate::proofs::Taking::nothing_seen, crate::proofs::Taking::nothing_stands))]
fn started() -> State
    ensures nothing { (words values : List ℕ) → seen result words values ≡ nothing }
    ensures stands { (words values links : List ℕ) → Padded 0 words → length values ≡ 1024 → length links ≡ 2048 → Stands result words values links }
{
    State {
        program: kept::unseen(),
        blocks: stack::none_open(),
    }
}

// What a program comes to whose END is followed by the place `next`, in a file of this length.
#[tactic(auto, unfolding(crate::specs::Inner::Held::ended))]
fn ended(program: Program, next: usize, end: usize) -> Result<Program, Refused<u32>>
    requires { next ≤ 65536 }
    ensures found { (words : List ℕ) → outcome result words ≡ ended next end (program_seen program words []) }
    ensures same { IfOk result (λ p. p ≡ program) }
{
    if next < end {
        return Err(Refused {
            refusal: Refusal::ByteAfterEnd,
            place: next as u32,
        });
    }
    Ok(program)
}

// The whole check. The immediates' words go to the first of `words`, which are 0 before; `values` holds the words of CASEs,
// `links` the links of their trees.
pub fn walk(
    file: &[u8],
    words: &mut [u32; 1024],
    values: &mut [u32; 1024],
    links: &mut [u16; 2048],
) -> Result<Program, Refused<u32>>
    requires { Padded 0 words.old × (length values.old ≡ 1024) × (length links.old ≡ 2048) }
    ensures found { outcome result words.new ≡ check_of file.now }
    ensures padded { IfOk result (λ p. Padded p.immediates words.new × (p.immediates ≤ 256)) }
{
    let end = file.len();
    if format::records::LONGEST < end {
        return Err(Refused {
            refusal: Refusal::TooLong,
            place: 0,
        });
    }
    let mut s = started();
    let mut at: usize = 0;
    while at < end {
        let next = at + records::size_at(file, at);
        match record(s, file, at, next, words, values, links) {
            Ok(after) => s = after,
            Err(refusal) => {
                return Err(Refused {
                    refusal,
                    place: at as u32,
                });
            }
        }
        if readers::byte_at(file, at) == END {
            return ended(s.program, next, end);
        }
        at = next;
    }
    Err(Refused {
        refusal: Refusal::NoEnd,
        place: end as u32,
    })
}
