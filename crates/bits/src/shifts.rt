// Shifts, by the low bits of the count.
ghost use Rattle.std.specs.Prelude.{◌≡◌};
ghost use Rattle.words.specs.Word.{shl, ushr, ishr};

use words::width::Word;

// SHL, U64SHL.
pub fn shl<W: Word>(a: W, count: W) -> W
    ensures { W.value result ≡ shl W.bits (W.value a) (W.value count) }
{
    a.wrapping_shl(count)
}

// USHR, U64SHR.
pub fn ushr<W: Word>(a: W, count: W) -> W
    ensures { W.value result ≡ ushr W.bits (W.value a) (W.value count) }
{
    a.wrapping_shr(count)
}

// ISHR, I64SHR. Ones come in from above where the word is negative: zeros, seen from its complement.
pub fn ishr<W: Word>(a: W, count: W) -> W
    ensures { W.value result ≡ ishr W.bits (W.value a) (W.value count) }
{
    if a.is_negative() {
        !ushr(!a, count)
    } else {
        ushr(a, count)
    }
}
