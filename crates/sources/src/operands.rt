// Sources read by register number, over lent words.
ghost use Rattle.std.specs.Prelude.{◌≡◌, ◌+◌, ◌<◌, ◌^◌, pos, ◌+ℤ◌};
ghost use Rattle.words.specs.Word.{signed};
ghost use Rattle.sources.specs.Operands.{word_in, if_declared, register_of, selected, four_from, register_words, taken, source_of};
ghost use Rattle.sources.specs.Bank.{declared_in, env_in};

use crate::bank::Bank;
use crate::parts;
use bits::bit_in;
use destinations::lent::word_at;
use format::fields::{Source, indirection, negates};
use format::files::{ADDR_FROM, CONST, IMM, IN, TEMP, TEMP_FROM};
use words::sums::neg;

// Whether a CONST or TEMP register is declared.
#[tactic(auto, unfolding(crate::specs::Bank::declared_in))]
fn is_declared(declared: &[u32], file: u8, n: u32) -> bool
    ensures { result ≡ declared_in declared.now file n }
{
    match file {
        CONST => n < 1024 && bit_in(declared, n as usize),
        TEMP => n < 256 && bit_in(declared, 1024 + n as usize),
        _ => false,
    }
}

// Index plus address as a signed number, if that is a declared register's.
fn indirect(declared: &[u32], file: u8, index: u16, address: u32) -> Option<u32>
    ensures { result ≡ if_declared (declared_in declared.now) file (pos index +ℤ signed 32 address) }
{
    let n = u32::from(index).checked_add_signed(address.cast_signed())?;
    is_declared(declared, file, n).then_some(n)
}

// The register that a source names, if it names one.
fn register_of(s: Source, bank: &Bank, registers: &[u32]) -> Option<u32>
    ensures { result ≡ register_of (env_in bank.now).declared registers.now s }
{
    let component = indirection(s);
    if component == 0 {
        return Some(u32::from(s.index));
    }
    let address = word_at(registers, ADDR_FROM as usize - 1 + component as usize);
    indirect(parts::declared(bank), s.file, s.index, address)
}

fn select(swizzle: u8, i: u8) -> u8
    requires { i < 4 }
    ensures { result ≡ selected swizzle i }
{
    (swizzle >> (2 * i)) % 4
}

// The word that a swizzle selects for component i, of the four from `first` on.
fn selected_word(words: &[u32], first: usize, swizzle: u8, i: u8) -> u32
    requires { (first < 2 ^ 40) × (i < 4) }
    ensures { result ≡ word_in words.now (first + selected swizzle i) }
{
    word_at(words, first + select(swizzle, i) as usize)
}

// What a source takes of the four words from `first` on.
fn pick(words: &[u32], first: usize, s: Source) -> [u32; 4]
    requires { first < 2 ^ 40 }
    ensures { result ≡ taken (four_from (word_in words.now) first) s }
{
    let x = selected_word(words, first, s.swizzle, 0);
    let y = selected_word(words, first, s.swizzle, 1);
    let z = selected_word(words, first, s.swizzle, 2);
    let w = selected_word(words, first, s.swizzle, 3);
    if negates(s) {
        [neg(x), neg(y), neg(z), neg(w)]
    } else {
        [x, y, z, w]
    }
}

// What a source takes of register n of its file.
fn pick_register(n: u32, s: Source, bank: &Bank, registers: &[u32]) -> [u32; 4]
    ensures { result ≡ taken (register_words (env_in bank.now) registers.now s.file n) s }
{
    let first = 4 * n as usize;
    match s.file {
        CONST => pick(parts::constants(bank), first, s),
        IN => pick(parts::inputs(bank), first, s),
        TEMP => pick(registers, TEMP_FROM as usize + first, s),
        IMM => pick(parts::immediates(bank), first, s),
        _ => [0, 0, 0, 0],
    }
}

// What a source reads, component by component.
pub fn read(s: Source, bank: &Bank, registers: &[u32]) -> [u32; 4]
    ensures { result ≡ source_of (env_in bank.now) registers.now s }
{
    match register_of(s, bank, registers) {
        Some(n) => pick_register(n, s, bank, registers),
        None => [0, 0, 0, 0],
    }
}
