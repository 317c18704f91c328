// Decimal numbers as bytes.
ghost use Rattle.std.specs.Prelude.{◌≡◌, ◌+◌, ◌-◌, ◌*◌, ◌%◌, ◌^◌, ◌≤◌, length, set};
ghost use Rattle.std.proofs.lemmas.List.Edits.{sets};
ghost use Rattle.text.specs.Decimal.{digit, decimal, value_of};

use crate::output::put;

// Puts a number's last digit k places after a place.
fn put_last_digit(n: u32, output: &mut [u8], at: usize, k: usize)
    ensures { output.new ≡ set output.old (at + k) (digit (n % 10)) }
{
    put(output, at, k, b'0' + (n % 10) as u8);
}

// How many digits a number has.
fn digit_count(n: u32) -> usize
    ensures { result ≡ length (decimal n) }
{
    match n.checked_ilog10() {
        Some(power) => power as usize + 1,
        None => 1,
    }
}

// Puts the digits of a number, the last one first.
fn put_digits(n: u32, count: usize, output: &mut [u8], at: usize)
    requires { count ≡ length (decimal n) }
    ensures { output.new ≡ sets output.old at (decimal n) }
{
    let mut rest = n;
    for k in (0..count).rev() {
        put_last_digit(rest, output, at, k);
        rest /= 10;
    }
}

// Puts the digits of a number from a place on, those that lie within the output, and answers how many the number has. Past the
// end they are only counted, so that a length is found quickly by putting into no byte.
pub fn put_decimal(n: u32, output: &mut [u8], at: usize) -> usize
    ensures put { output.new ≡ sets output.old at (decimal n) }
    ensures length { result ≡ length (decimal n) }
    ensures few { result ≤ 10 }
{
    let count = digit_count(n);
    if output.len() <= at {
        return count;
    }
    put_digits(n, count, output, at);
    count
}

// The number whose digits these are, modulo 2^32.
pub fn value(bytes: &[u8]) -> u32
    ensures { result ≡ value_of bytes.now % 2 ^ 32 }
{
    let mut v: u32 = 0;
    for byte in bytes {
        v = with_digit(v, *byte);
    }
    v
}

// A number with one digit more, modulo 2^32. A byte below '0' is the digit 0.
fn with_digit(v: u32, byte: u8) -> u32
    ensures { result ≡ (10 * v + (byte - 48)) % 2 ^ 32 }
{
    v.wrapping_mul(10)
        .wrapping_add(u32::from(byte.saturating_sub(b'0')))
}
