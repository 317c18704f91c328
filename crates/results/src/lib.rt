// Results by kind. Each family is a match over its kinds, in document 01's order.
#![tactic(auto)]

ghost use Rattle.std.specs.Prelude.{◌≡◌};
ghost use Rattle.results.specs.Arithmetic.{atomic, result_word};

use bitfields::{bfi32, ibfe32, ubfe32};
use bits::shifts::{ishr, shl, ushr};
use bits::{and32, brev32, imsb32, lsb32, not32, or32, popc32, umsb32, xor32};
use division::{sdiv, srem, udiv, urem};
use order::{flag32, slt, smax, smin, ucmp32, umax, umin};
use products::{imulhi32, mul, umad32, umulhi32};
use words::sums::{add, iabs, neg, ssg};

pub mod wide;

// A result on words, from one component of each source: the table of kinds, in its order.
#[tactic(auto, unfolding(crate::specs::Arithmetic::result_word, crate::specs::Arithmetic::unary, crate::specs::Arithmetic::binary, crate::specs::Arithmetic::ternary))]
pub fn word(kind: u8, a: u32, b: u32, c: u32, d: u32) -> u32
    ensures { result ≡ result_word kind a b c d }
{
    match kind {
        0x10 => a,
        0x11 => not32(a),
        0x12 => neg(a),
        0x13 => iabs(a),
        0x14 => ssg(a),
        0x15 => brev32(a),
        0x16 => popc32(a),
        0x17 => lsb32(a),
        0x18 => imsb32(a),
        0x19 => umsb32(a),
        0x1a => a,
        0x20 => add(a, b),
        0x21 => mul(a, b),
        0x22 => imulhi32(a, b),
        0x23 => umulhi32(a, b),
        0x24 => sdiv(a, b),
        0x25 => udiv(a, b),
        0x26 => srem(a, b),
        0x27 => urem(a, b),
        0x28 => and32(a, b),
        0x29 => or32(a, b),
        0x2a => xor32(a, b),
        0x2b => smin(a, b),
        0x2c => smax(a, b),
        0x2d => umin(a, b),
        0x2e => umax(a, b),
        0x2f => shl(a, b),
        0x30 => ishr(a, b),
        0x31 => ushr(a, b),
        0x32 => flag32(slt(a, b)),
        0x33 => flag32(a < b),
        0x34 => flag32(!slt(a, b)),
        0x35 => flag32(b <= a),
        0x36 => flag32(a == b),
        0x37 => flag32(a != b),
        0x60 => umad32(a, b, c),
        0x61 => ucmp32(a, b, c),
        0x62 => ibfe32(a, b, c),
        0x63 => ubfe32(a, b, c),
        0x70 => bfi32(a, b, c, d),
        _ => 0,
    }
}

// What an atomic stores, by the old word and src1.x.
#[tactic(auto, unfolding(crate::specs::Arithmetic::atomic))]
pub fn atomic_word(kind: u8, old: u32, b: u32) -> u32
    ensures { result ≡ atomic kind old b }
{
    match kind {
        0x56 => smin(old, b),
        0x57 => smax(old, b),
        0x58 => old,
        0x59 => add(old, b),
        0x5a => b,
        0x5b => and32(old, b),
        0x5c => or32(old, b),
        0x5d => xor32(old, b),
        0x5e => umin(old, b),
        0x5f => umax(old, b),
        _ => 0,
    }
}
