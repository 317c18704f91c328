// Products of words (UMUL, U64MUL, UMAD) and the HI pair, the upper halves. `words`' specs/Word.antt says what each returns.
#![tactic(auto)]

ghost use Rattle.std.specs.Prelude.{◌≡◌, ◌*◌, nat_abs};
ghost use Rattle.words.specs.Word.{signed, mul, umad, umulhi, imulhi};

use words::sums::{add, iabs, neg};
use words::width::Word;

// 2^32: what lies below it is a 32-bit word.
const RANGE32: u64 = 0x1_0000_0000;

// UMUL, U64MUL.
pub fn mul<W: Word>(a: W, b: W) -> W
    ensures { W.value result ≡ mul W.bits (W.value a) (W.value b) }
{
    a.wrapping_mul(b)
}

// UMAD.
pub fn umad32(a: u32, b: u32, c: u32) -> u32
    ensures { result ≡ umad 32 a b c }
{
    add(mul(a, b), c)
}

// UMUL_HI.
pub fn umulhi32(a: u32, b: u32) -> u32
    ensures { result ≡ umulhi 32 a b }
{
    (full_product(a, b) / RANGE32) as u32
}

// IMUL_HI. Where the signs differ, the product is negated in 64 bits.
pub fn imulhi32(a: u32, b: u32) -> u32
    ensures { result ≡ imulhi 32 a b }
{
    let p = magnitude_product(a, b);
    let same_sign = a.is_negative() == b.is_negative();
    if same_sign {
        (p / RANGE32) as u32
    } else {
        (neg(p) / RANGE32) as u32
    }
}

// The product of two words, whole.
fn full_product(a: u32, b: u32) -> u64
    ensures { result ≡ a * b }
{
    a as u64 * b as u64
}

// The product of the magnitudes of two signed words, whole.
fn magnitude_product(a: u32, b: u32) -> u64
    ensures { result ≡ nat_abs (signed 32 a) * nat_abs (signed 32 b) }
{
    full_product(iabs(a), iabs(b))
}
