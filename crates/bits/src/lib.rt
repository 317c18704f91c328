// The bits of words of 32 and of 64 bits: AND OR XOR NOT, POPC LSB UMSB IMSB, BREV, and one bit of many words; the
// shifts in a module of their own. Of crate `words`, specs/Word.antt says what each returns; specs/Inner has a stage of BREV.
#![tactic(auto)]

ghost use Rattle.std.specs.Prelude.{◌≡◌, ◌*◌, ◌^◌, ◌<◌};
ghost use Rattle.std.specs.Int.Bits.{bit_and, bit_or, bit_xor};
ghost use Rattle.words.specs.Word.{bit_in, compl, popc, lsb, umsb, imsb, brev};
ghost use Rattle.bits.specs.Inner.Swaps.{swapped};

use words::width::Word;

pub mod shifts; // SHL USHR ISHR

// AND, ATOMAND.
pub fn and32(a: u32, b: u32) -> u32
    ensures { result ≡ bit_and a b }
{
    a & b
}

// OR, ATOMOR.
pub fn or32(a: u32, b: u32) -> u32
    ensures { result ≡ bit_or a b }
{
    a | b
}

// XOR, ATOMXOR.
pub fn xor32(a: u32, b: u32) -> u32
    ensures { result ≡ bit_xor a b }
{
    a ^ b
}

// NOT.
pub fn not32(a: u32) -> u32
    ensures { result ≡ compl 32 a }
{
    !a
}

// POPC.
#[tactic(auto, using(crate::proofs::Counts::popc_is))]
pub fn popc32(a: u32) -> u32
    ensures { result ≡ popc 32 a }
{
    u32::count_ones(a)
}

// LSB.
#[tactic(auto, using(crate::proofs::Counts::lsb_is, crate::proofs::Counts::lsb_none))]
pub fn lsb32(a: u32) -> u32
    ensures { result ≡ lsb 32 a }
{
    if a == 0 {
        u32::MAX
    } else {
        u32::trailing_zeros(a)
    }
}

// UMSB.
#[tactic(auto, using(crate::proofs::Counts::umsb_is, crate::proofs::Counts::umsb_none, crate::proofs::Counts::leading_fits))]
pub fn umsb32(a: u32) -> u32
    ensures { result ≡ umsb 32 a }
{
    if a == 0 {
        u32::MAX
    } else {
        31 - u32::leading_zeros(a)
    }
}

// IMSB. The highest 0 of a negative word is the highest 1 of its complement.
pub fn imsb32(a: u32) -> u32
    ensures { result ≡ imsb 32 a }
{
    if a.is_negative() {
        umsb32(!a)
    } else {
        umsb32(a)
    }
}

// BREV. Halves change places, then the quarters of each half, and so on down to single bits.
#[tactic(auto, using(crate::proofs::Reversal::reversed))]
pub fn brev32(a: u32) -> u32
    ensures { result ≡ brev 32 a }
{
    let halves = swap(a, 16, 0x0000FFFF);
    let quarters = swap(halves, 8, 0x00FF00FF);
    let eighths = swap(quarters, 4, 0x0F0F0F0F);
    let sixteenths = swap(eighths, 2, 0x33333333);
    swap(sixteenths, 1, 0x55555555)
}

// The bits of the mask change places with those `distance` above them, which must be all the others.
#[tactic(auto, using(crate::proofs::Swaps::joined_is))]
fn swap(a: u32, distance: u32, mask: u32) -> u32
    requires { (distance < 32) × (mask * 2 ^ distance ≡ compl 32 mask) }
    ensures { result ≡ swapped 32 a distance mask }
{
    ((a >> distance) & mask) | ((a & mask) << distance)
}

// Whether bit i of words of 32 bits is set.
#[tactic(auto, unfolding(words::specs::Word::bit_in))]
pub fn bit_in(words: &[u32], i: usize) -> bool
    ensures { result ≡ bit_in words.now i }
{
    let word = words.get(i / 32).copied().unwrap_or(0);
    (word >> (i % 32) as u32) % 2 == 1
}
