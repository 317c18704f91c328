// The effect of an instruction on registers and memory: a match on the kind with ranges.
ghost use Rattle.std.specs.Prelude.{◌≡◌};
ghost use Rattle.words.specs.Word.{cas};
ghost use Rattle.memory.specs.Memory.{loaded, stored};
ghost use Rattle.results.specs.Arithmetic.{atomic};
ghost use Rattle.effects.specs.Effect.{state, family_of, effect_of};

use componentwise::write_words;
use destinations::{first_word, write};
use format::fields::Destination;
use memory::{load, load_from, store, store_from};
use order::cas32;
use results::atomic_word;
use results::wide::{wide_unary_words, wide_words};

// Stores what an atomic of this kind makes of the old word and b, and gives the old word.
fn atomic(kind: u8, memory: &mut [u32], address: u32, b: u32) -> u32
    ensures { (result ≡ loaded memory.old address) × (memory.new ≡ stored memory.old address (atomic kind result b)) }
{
    let old = load(memory, address as usize);
    store(memory, address as usize, atomic_word(kind, old, b));
    old
}

// Stores c where the old word is b, and gives the old word.
fn atomic_cas(memory: &mut [u32], address: u32, b: u32, c: u32) -> u32
    ensures { (result ≡ loaded memory.old address) × (memory.new ≡ stored memory.old address (cas result b c)) }
{
    let old = load(memory, address as usize);
    store(memory, address as usize, cas32(old, b, c));
    old
}

// What an instruction of this kind does, given its destination and what its sources read.
pub fn effect(
    kind: u8,
    d: Destination,
    sources: &[[u32; 4]; 4],
    registers: &mut [u32],
    memory: &mut [u32],
)
    ensures { state registers.new memory.new ≡ effect_of (family_of kind) kind d sources.now (state registers.old memory.old) }
{
    let first = first_word(d);
    let mask = d.mask;
    let x = sources[0][0];
    match kind {
        0x10..=0x1a => write_words(registers, first, mask, kind, sources),
        0x1b..=0x1d => write(registers, first, mask, wide_unary_words(kind, sources[0])),
        0x1e => write(registers, first, mask, load_from(memory, x)),
        0x20..=0x37 => write_words(registers, first, mask, kind, sources),
        0x40..=0x52 => {
            let v = wide_words(kind, sources[0], sources[1]);
            write(registers, first, mask, v);
        }
        0x58 => store_from(memory, x, mask, sources[1]),
        0x56..=0x5f => {
            let old = atomic(kind, memory, x, sources[1][0]);
            write(registers, first, mask, [old; 4]);
        }
        0x60..=0x63 => write_words(registers, first, mask, kind, sources),
        0x64 => {
            let b = sources[1][0];
            let old = atomic_cas(memory, x, b, sources[2][0]);
            write(registers, first, mask, [old; 4]);
        }
        0x70 => write_words(registers, first, mask, kind, sources),
        _ => {}
    }
}
