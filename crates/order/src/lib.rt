// Comparisons, the least and the greatest, and choices by a test (UCMP, ATOMCAS). `words`' specs/Word.antt says what each returns.
#![tactic(auto)]

ghost use Rattle.std.specs.Prelude.{◌≡◌};
ghost use Rattle.words.specs.Word.{flag, slt, smin, smax, umin, umax, ucmp, cas};

use words::width::Word;

// What a comparison gives for a test.
pub fn flag32(t: bool) -> u32
    ensures { result ≡ flag 32 t }
{
    if t { u32::MAX } else { 0 }
}

// ISLT, ISGE, I64SLT, I64SGE.
pub fn slt<W: Word>(a: W, b: W) -> bool
    ensures { result ≡ slt W.bits (W.value a) (W.value b) }
{
    a.signed_lt(b)
}

// IMIN, I64MIN, ATOMIMIN.
pub fn smin<W: Word>(a: W, b: W) -> W
    ensures { W.value result ≡ smin W.bits (W.value a) (W.value b) }
{
    if slt(a, b) { a } else { b }
}

// IMAX, I64MAX, ATOMIMAX.
pub fn smax<W: Word>(a: W, b: W) -> W
    ensures { W.value result ≡ smax W.bits (W.value a) (W.value b) }
{
    if slt(a, b) { b } else { a }
}

// UMIN, U64MIN, ATOMUMIN.
pub fn umin<W: Word>(a: W, b: W) -> W
    ensures { W.value result ≡ umin (W.value a) (W.value b) }
{
    if a < b { a } else { b }
}

// UMAX, U64MAX, ATOMUMAX.
pub fn umax<W: Word>(a: W, b: W) -> W
    ensures { W.value result ≡ umax (W.value a) (W.value b) }
{
    if a < b { b } else { a }
}

// UCMP.
pub fn ucmp32(a: u32, b: u32, c: u32) -> u32
    ensures { result ≡ ucmp a b c }
{
    if a == 0 { c } else { b }
}

// ATOMCAS: the word that it leaves in memory.
pub fn cas32(old: u32, expected: u32, new: u32) -> u32
    ensures { result ≡ cas old expected new }
{
    if old == expected { new } else { old }
}
