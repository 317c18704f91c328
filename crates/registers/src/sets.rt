// Which registers of each file are declared, one bit each, in a struct of word arrays that goes by value; and declarations,
// which name registers of a file.
ghost use Rattle.std.specs.Prelude.{◌≡◌, cond, ◌<◌, ◌≤◌, ◌+◌, ◌-◌, ◌*◌, length};
ghost use Rattle.words.specs.Word.{bit_in};
ghost use Rattle.format.specs.Files.{registers_of};
ghost use Rattle.registers.specs.Sets.{is_in, none, with_all, with_range, any_of, words_of};
ghost use Rattle.registers.specs.Inner.Bits.{with_one};
ghost use Rattle.registers.specs.Rules.{declaration_rule};
ghost use Rattle.registers.specs.Found.{overlaps};

use bits::bit_in;
use format::fields::Declaration;
use format::files::{ADDR, CONST, IN, MEM, OUT, TEMP, registers_of};

#[derive(Clone, Copy)]
pub struct Declared {
    pub consts: [u32; 32],
    pub ins: [u32; 1],
    pub outs: [u32; 1],
    pub temps: [u32; 8],
    pub addr: [u32; 1],
    pub mem: [u32; 1],
}

// No register is declared.
pub fn empty() -> Declared
    ensures { is_in result ≡ none }
{
    Declared {
        consts: [0; 32],
        ins: [0; 1],
        outs: [0; 1],
        temps: [0; 8],
        addr: [0; 1],
        mem: [0; 1],
    }
}

// Whether a bit from first to last is set. Past the words none is, so the walk ends with them.
fn has_any(words: &[u32], first: u16, last: u16) -> bool
    ensures { result ≡ any_of (bit_in words.now) first (last + 1 - first) }
{
    let end = (last as usize + 1).min(words.len().saturating_mul(32));
    (first as usize..end).any(|i| bit_in(words, i))
}

// Whether any bit is set at all.
fn has_some(words: &[u32]) -> bool
    ensures { result ≡ any_of (bit_in words.now) 0 (32 * length words.now) }
{
    words.iter().any(|word| *word != 0)
}

// Sets bit i.
fn set_bit(words: &mut [u32], i: usize)
    requires { i < 32 * length words.old }
    ensures { bit_in words.new ≡ with_one (bit_in words.old) i }
{
    words[i / 32] |= 1u32 << (i % 32) as u32;
}

// Sets the bits from first to last.
fn set_bits(words: &mut [u32], first: u16, last: u16)
    requires { (first ≤ last) × (last < 32 * length words.old) }
    ensures { bit_in words.new ≡ with_all (bit_in words.old) first last }
{
    for i in first as usize..last as usize + 1 {
        set_bit(words, i);
    }
}

impl Declared {
    // The words of a file; no words where its registers are not declared.
    fn words_of(&self, file: u8) -> &[u32]
        ensures { result.now ≡ words_of self.now file }
    {
        match file {
            CONST => &self.consts,
            IN => &self.ins,
            OUT => &self.outs,
            TEMP => &self.temps,
            ADDR => &self.addr,
            MEM => &self.mem,
            _ => &[],
        }
    }
}

// Whether a register is declared.
#[tactic(auto, unfolding(crate::specs::Sets::is_in))]
pub fn is_declared(d: Declared, file: u8, index: usize) -> bool
    ensures { result ≡ is_in d file index }
{
    bit_in(d.words_of(file), index)
}

// Whether some register of a file is declared.
#[tactic(auto, unfolding(crate::specs::Sets::is_in), using(crate::proofs::Files::some_declared))]
pub fn is_file_declared(d: Declared, file: u8) -> bool
    ensures { result ≡ any_of (is_in d file) 0 (registers_of file) }
{
    let words = d.words_of(file);
    match file {
        // A file of one register has the first bit of its word.
        ADDR | MEM => bit_in(words, 0),
        _ => has_some(words),
    }
}

// Whether a declaration names registers that its file has.
#[tactic(auto, unfolding(crate::specs::Rules::declaration_rule))]
pub fn declaration_allowed(d: Declaration) -> bool
    ensures { result ≡ declaration_rule d }
{
    matches!(d.file, CONST..=ADDR | MEM)
        && d.first <= d.last
        && (d.last as usize) < registers_of(d.file)
}

// Whether a declaration names a register that is declared.
#[tactic(auto, unfolding(crate::specs::Sets::is_in))]
pub fn overlaps(d: Declared, more: Declaration) -> bool
    ensures { result ≡ overlaps (is_in d) more }
{
    has_any(d.words_of(more.file), more.first, more.last)
}

// The set with the registers of a file from first to last more.
#[tactic(auto, unfolding(crate::specs::Sets::is_in))]
fn with_range(d: Declared, file: u8, first: u16, last: u16) -> Declared
    requires { (first ≤ last) × (last < registers_of file) }
    ensures { is_in result ≡ with_range (is_in d) file first last }
{
    let mut set = d;
    match file {
        CONST => set_bits(&mut set.consts, first, last),
        IN => set_bits(&mut set.ins, first, last),
        OUT => set_bits(&mut set.outs, first, last),
        TEMP => set_bits(&mut set.temps, first, last),
        ADDR => set_bits(&mut set.addr, first, last),
        MEM => set_bits(&mut set.mem, first, last),
        _ => {}
    }
    set
}

// The set with the registers more that a declaration names; where the declaration breaks its rule, the set as it is.
#[tactic(auto, unfolding(crate::specs::Rules::declaration_rule))]
pub fn declare(d: Declared, more: Declaration) -> Declared
    ensures { is_in result ≡ cond (declaration_rule more) (with_range (is_in d) more.file more.first more.last) (is_in d) }
{
    if !declaration_allowed(more) {
        return d;
    }
    with_range(d, more.file, more.first, more.last)
}
