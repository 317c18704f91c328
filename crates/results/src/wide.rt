// Results on 64-bit values: x low and y high, z low and w high.
ghost use Rattle.std.specs.Prelude.{◌≡◌};
ghost use Rattle.results.specs.Arithmetic.{wide_unary, wide, pair, halves, count_or, wide_unary_of, wide_of};

use bits::shifts::{ishr, shl, ushr};
use division::{sdiv, srem, udiv, urem};
use order::{flag32, slt, smax, smin, umax, umin};
use products::mul;
use words::sums::{add, iabs, neg, ssg};

fn pair_of(low: u32, high: u32) -> u64
    ensures { result ≡ pair low high }
{
    low as u64 + high as u64 * 0x1_0000_0000
}

#[tactic(auto, unfolding(crate::specs::Arithmetic::halves))]
fn halves_of(xy: u64, zw: u64) -> [u32; 4]
    ensures { result ≡ halves xy zw }
{
    [
        (xy % 0x1_0000_0000) as u32,
        (xy / 0x1_0000_0000) as u32,
        (zw % 0x1_0000_0000) as u32,
        (zw / 0x1_0000_0000) as u32,
    ]
}

#[tactic(auto, unfolding(crate::specs::Arithmetic::wide_unary))]
fn wide_unary_value(kind: u8, a: u64) -> u64
    ensures { result ≡ wide_unary kind a }
{
    match kind {
        0x1b => iabs(a),
        0x1c => neg(a),
        0x1d => ssg(a),
        _ => 0,
    }
}

#[tactic(auto, unfolding(crate::specs::Arithmetic::wide_unary_of))]
pub fn wide_unary_words(kind: u8, a: [u32; 4]) -> [u32; 4]
    ensures { result ≡ wide_unary_of kind a }
{
    let xy = wide_unary_value(kind, pair_of(a[0], a[1]));
    let zw = wide_unary_value(kind, pair_of(a[2], a[3]));
    halves_of(xy, zw)
}

#[tactic(auto, unfolding(crate::specs::Arithmetic::wide))]
fn wide_value(kind: u8, a: u64, b: u64) -> u64
    ensures { result ≡ wide kind a b }
{
    match kind {
        0x40 => add(a, b),
        0x41 => mul(a, b),
        0x42 => udiv(a, b),
        0x43 => urem(a, b),
        0x44 => sdiv(a, b),
        0x45 => srem(a, b),
        0x46 => umin(a, b),
        0x47 => umax(a, b),
        0x48 => smin(a, b),
        0x49 => smax(a, b),
        0x4a => shl(a, b),
        0x4b => ishr(a, b),
        0x4c => ushr(a, b),
        0x4d => flag32(a == b) as u64,
        0x4e => flag32(a != b) as u64,
        0x4f => flag32(a < b) as u64,
        0x50 => flag32(b <= a) as u64,
        0x51 => flag32(slt(a, b)) as u64,
        0x52 => flag32(!slt(a, b)) as u64,
        _ => 0,
    }
}

// The second operand: a shift takes its count from one word.
#[tactic(auto, unfolding(crate::specs::Arithmetic::count_or))]
fn count_or(kind: u8, count: u32, value: u64) -> u64
    ensures { result ≡ count_or kind count value }
{
    match kind {
        0x4a..=0x4c => count as u64,
        _ => value,
    }
}

#[tactic(auto, unfolding(crate::specs::Arithmetic::wide_of))]
pub fn wide_words(kind: u8, a: [u32; 4], b: [u32; 4]) -> [u32; 4]
    ensures { result ≡ wide_of kind a b }
{
    let xy = wide_value(
        kind,
        pair_of(a[0], a[1]),
        count_or(kind, b[0], pair_of(b[0], b[1])),
    );
    let zw = wide_value(
        kind,
        pair_of(a[2], a[3]),
        count_or(kind, b[1], pair_of(b[2], b[3])),
    );
    halves_of(xy, zw)
}
