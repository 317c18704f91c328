// What words of both widths share: contracts go by how many bits a word has and by the number that it is.
ghost use Rattle.std.specs.Prelude.{◌≡◌, ℕ, Some, ◌+◌, ◌-◌, ◌/◌, ◌%◌, ◌^◌, ◌<◌, nat_eq, nat_le};
ghost use Rattle.std.specs.Ordering.{nat_cmp};
ghost use Rattle.std.proofs.Common.{refl};
ghost use Rattle.words.specs.Word.{add, compl, mul, neg, shl, slt, ushr};

use std::ops::{Div, Not, Rem};

pub trait Word: Copy
    + Ord
    + From<u32>
    + Not<Output = Self>
    + Div<Self, Output = Self>
    + Rem<Self, Output = Self> {
    ghost bits: { ℕ };

    ghost value: { Self → ℕ };

    fn wrapping_add(self, other: Self) -> Self
        ensures { value result ≡ add bits (value self) (value other) };

    fn wrapping_mul(self, other: Self) -> Self
        ensures { value result ≡ mul bits (value self) (value other) };

    fn wrapping_neg(self) -> Self
        ensures { value result ≡ neg bits (value self) };

    // A shift by what is left of the count modulo the number of bits.
    fn wrapping_shl(self, count: Self) -> Self
        ensures { value result ≡ shl bits (value self) (value count) };

    fn wrapping_shr(self, count: Self) -> Self
        ensures { value result ≡ ushr bits (value self) (value count) };

    // That a word is below 2 ^ bits stands in the clauses of its tests, since in a law a `u32` is any number.
    fn is_zero(self) -> bool
        ensures zero { result ≡ nat_eq (value self) 0 }
        ensures range { value self < 2 ^ bits };

    // Whether the sign bit is set.
    fn is_negative(self) -> bool
        ensures sign { result ≡ nat_le (2 ^ (bits - 1)) (value self) }
        ensures range { value self < 2 ^ bits };

    // `<` of the signed numbers.
    fn signed_lt(self, other: Self) -> bool
        ensures { result ≡ slt bits (value self) (value other) };

    ghost halves: { 2 ^ bits ≡ 2 ^ (bits - 1) + 2 ^ (bits - 1) };

    // The operators are those of the numbers.
    ghost order: { (a b : Self) → Self.partial_cmp a b ≡ Some (nat_cmp (value a) (value b)) };

    ghost from: { (n : ℕ) (r : Self) → Self.from_gives n r → value r ≡ n };

    ghost can_complement: { (a : Self) → Self.can_not a };

    ghost complement: { (a r : Self) → Self.not_gives a r → value r ≡ compl bits (value a) };

    ghost can_divide: { (a b : Self) → 0 < value b → Self.can_div a b };

    ghost quotient: { (a b q : Self) → Self.div_gives a b q → value q ≡ value a / value b };

    ghost can_take_out: { (a b : Self) → 0 < value b → Self.can_rem a b };

    ghost remainder: { (a b r : Self) → Self.rem_gives a b r → value r ≡ value a % value b };
}

impl Word for u32 {
    ghost bits = { 32 };

    ghost value = { λ a. a };

    fn wrapping_add(self, other: u32) -> u32 {
        u32::wrapping_add(self, other)
    }

    fn wrapping_mul(self, other: u32) -> u32 {
        u32::wrapping_mul(self, other)
    }

    fn wrapping_neg(self) -> u32 {
        u32::wrapping_neg(self)
    }

    fn wrapping_shl(self, count: u32) -> u32 {
        u32::wrapping_shl(self, count)
    }

    fn wrapping_shr(self, count: u32) -> u32 {
        u32::wrapping_shr(self, count)
    }

    fn is_zero(self) -> bool {
        self == 0u32
    }

    fn is_negative(self) -> bool {
        u32::cast_signed(self) < 0
    }

    fn signed_lt(self, other: u32) -> bool {
        u32::cast_signed(self) < u32::cast_signed(other)
    }

    ghost halves = { refl };

    ghost order = { λ a b. refl };

    ghost from = { λ n r h. h };

    ghost can_complement = { λ a. tt };

    ghost complement = { λ a r h. h };

    ghost can_divide = { λ a b h. h };

    ghost quotient = { λ a b q h. h };

    ghost can_take_out = { λ a b h. h };

    ghost remainder = { λ a b r h. h };
}

impl Word for u64 {
    ghost bits = { 64 };

    ghost value = { λ a. a };

    fn wrapping_add(self, other: u64) -> u64 {
        u64::wrapping_add(self, other)
    }

    fn wrapping_mul(self, other: u64) -> u64 {
        u64::wrapping_mul(self, other)
    }

    fn wrapping_neg(self) -> u64 {
        u64::wrapping_neg(self)
    }

    fn wrapping_shl(self, count: u64) -> u64 {
        self << (count % 64)
    }

    fn wrapping_shr(self, count: u64) -> u64 {
        self >> (count % 64)
    }

    fn is_zero(self) -> bool {
        self == 0u64
    }

    fn is_negative(self) -> bool {
        u64::cast_signed(self) < 0
    }

    fn signed_lt(self, other: u64) -> bool {
        u64::cast_signed(self) < u64::cast_signed(other)
    }

    ghost halves = { refl };

    ghost order = { λ a b. refl };

    ghost from = { λ n r h. h };

    ghost can_complement = { λ a. tt };

    ghost complement = { λ a r h. h };

    ghost can_divide = { λ a b h. h };

    ghost quotient = { λ a b q h. h };

    ghost can_take_out = { λ a b h. h };

    ghost remainder = { λ a b r h. h };
}
