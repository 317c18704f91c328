// Fields of bits. UBFE, IBFE and BFI have one function each; the test that they share and their parts stand below. The parts are
// numbers of 64 bits, so that 2^32 fits. `words`' specs/Word.antt says what each returns.
#![tactic(auto)]

ghost use Rattle.std.specs.Prelude.{◌≡◌, ◌+◌, ◌*◌, ◌%◌, ◌^◌, ◌<◌, ◌≤◌};
ghost use Rattle.words.specs.Word.{signed, word, outside, field, replaced, ubfe, ibfe, bfi};

// UBFE.
#[tactic(auto, unfolding(words::specs::Word::ubfe))]
pub fn ubfe32(a: u32, offset: u32, bits: u32) -> u32
    ensures { result ≡ ubfe 32 a offset bits }
{
    if is_outside(offset, bits) {
        0
    } else {
        cut(a, offset, bits)
    }
}

// IBFE.
#[tactic(auto, unfolding(words::specs::Word::ibfe))]
pub fn ibfe32(a: u32, offset: u32, bits: u32) -> u32
    ensures { result ≡ ibfe 32 a offset bits }
{
    if is_outside(offset, bits) {
        return 0;
    }
    if bits == 0 {
        return 0;
    }
    extended(cut(a, offset, bits), bits)
}

// BFI.
#[tactic(auto, unfolding(words::specs::Word::bfi))]
pub fn bfi32(base: u32, insert: u32, offset: u32, bits: u32) -> u32
    ensures { result ≡ bfi 32 base insert offset bits }
{
    if is_outside(offset, bits) {
        base
    } else {
        inserted(base, insert, offset, bits)
    }
}

// Whether the field does not lie within the word. A negative number is over 32 as a word.
#[tactic(auto, using(crate::proofs::Fields::outside_offset, crate::proofs::Fields::outside_rest))]
fn is_outside(offset: u32, bits: u32) -> bool
    ensures { result ≡ outside 32 offset bits }
{
    if 32 < offset {
        true
    } else {
        32 - offset < bits
    }
}

// The field as an unsigned number.
fn cut(a: u32, offset: u32, bits: u32) -> u32
    requires { offset + bits ≤ 32 }
    ensures { result ≡ field a offset bits }
{
    (((a as u64) >> offset) % power(bits)) as u32
}

// A number of `bits` bits with its sign bit in all bits above it.
#[tactic(auto, using(crate::proofs::Fields::extended_low))]
fn extended(part: u32, bits: u32) -> u32
    requires { (0 < bits) × (bits ≤ 32) × (part < 2 ^ bits) }
    ensures { result ≡ word 32 (signed bits part) }
{
    if (part as u64) < power(bits - 1) {
        part
    } else {
        !((power(bits) - 1 - part as u64) as u32)
    }
}

// The base with the field taken from the low bits of `insert`.
#[tactic(auto, using(crate::proofs::Fields::inserted_is))]
fn inserted(base: u32, insert: u32, offset: u32, bits: u32) -> u32
    requires { offset + bits ≤ 32 }
    ensures { result ≡ replaced base insert offset bits }
{
    let above = (base as u64) >> (offset + bits);
    joined(joined(above, insert as u64, bits), base as u64, offset) as u32
}

// The low n bits of one number under another.
fn joined(high: u64, low: u64, n: u32) -> u64
    requires { (high < 2 ^ 32) × (n ≤ 32) }
    ensures { result ≡ high * 2 ^ n + low % 2 ^ n }
{
    high * power(n) + low % power(n)
}

// 2^n.
#[tactic(auto, using(crate::proofs::Fields::power_is))]
fn power(n: u32) -> u64
    requires { n < 64 }
    ensures { result ≡ 2 ^ n }
{
    1u64 << n
}
