// Quotients and remainders (UDIV UMOD IDIV MOD); the signed ones go by the magnitudes. `words`' specs/Word.antt says what each returns.
#![tactic(auto)]

ghost use Rattle.std.specs.Prelude.{◌≡◌};
ghost use Rattle.words.specs.Word.{udiv, urem, sdiv, srem};

use words::sums::{iabs, neg};
use words::width::Word;

// UDIV, U64DIV.
pub fn udiv<W: Word>(a: W, b: W) -> W
    ensures { W.value result ≡ udiv W.bits (W.value a) (W.value b) }
{
    if b.is_zero() { !W::from(0) } else { a / b }
}

// UMOD, U64MOD.
pub fn urem<W: Word>(a: W, b: W) -> W
    ensures { W.value result ≡ urem W.bits (W.value a) (W.value b) }
{
    if b.is_zero() { !W::from(0) } else { a % b }
}

// IDIV, I64DIV.
pub fn sdiv<W: Word>(a: W, b: W) -> W
    ensures { W.value result ≡ sdiv W.bits (W.value a) (W.value b) }
{
    if b.is_zero() {
        return b;
    }
    let q = iabs(a) / iabs(b);
    let same_sign = a.is_negative() == b.is_negative();
    if same_sign { q } else { neg(q) }
}

// MOD, I64MOD.
pub fn srem<W: Word>(a: W, b: W) -> W
    ensures { W.value result ≡ srem W.bits (W.value a) (W.value b) }
{
    if b.is_zero() {
        return !W::from(0);
    }
    let m = iabs(a) % iabs(b);
    if a.is_negative() { neg(m) } else { m }
}
