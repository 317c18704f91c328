// Sums, negatives, magnitudes and signs.
ghost use Rattle.std.specs.Prelude.{◌≡◌};
ghost use Rattle.words.specs.Word.{add, neg, iabs, ssg};

use crate::width::Word;

// UADD, U64ADD, ATOMUADD.
pub fn add<W: Word>(a: W, b: W) -> W
    ensures { W.value result ≡ add W.bits (W.value a) (W.value b) }
{
    a.wrapping_add(b)
}

// INEG, I64NEG, and an operand's negate.
pub fn neg<W: Word>(a: W) -> W
    ensures { W.value result ≡ neg W.bits (W.value a) }
{
    a.wrapping_neg()
}

// IABS, I64ABS.
pub fn iabs<W: Word>(a: W) -> W
    ensures { W.value result ≡ iabs W.bits (W.value a) }
{
    if a.is_negative() { neg(a) } else { a }
}

// ISSG, I64SSG.
pub fn ssg<W: Word>(a: W) -> W
    ensures { W.value result ≡ ssg W.bits (W.value a) }
{
    if a.is_zero() {
        a
    } else if a.is_negative() {
        !W::from(0)
    } else {
        W::from(1)
    }
}
