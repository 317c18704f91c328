// A lent output: written from its front, where it is long enough.
ghost use Rattle.std.specs.Prelude.{◌≡◌, ◌+◌, set, drop};
ghost use Rattle.std.proofs.lemmas.List.Edits.{sets};
ghost use Rattle.text.specs.Output.{answered, written, delivered};

use format::refusals::{Refusal, Refused};

// Puts a byte k places after a place. Past the end nothing is put, nor where the sum is past every end. (Of a slice's `get_mut` no
// contract says what the slice holds afterwards.)
pub fn put(output: &mut [u8], at: usize, k: usize, byte: u8)
    ensures { output.new ≡ set output.old (at + k) byte }
{
    let place = at.saturating_add(k);
    if place < output.len() {
        output[place] = byte;
    }
}

// Puts bytes from a place on, those that lie within the output.
pub fn put_all(output: &mut [u8], at: usize, bytes: &[u8])
    ensures { output.new ≡ sets output.old at bytes.now }
{
    for (i, byte) in bytes.iter().enumerate() {
        put(output, at, i, *byte);
    }
}

// Moves what a text has from a place on to its front.
pub fn move_to_front(text: &mut [u8], from: usize)
    ensures { text.new ≡ sets text.old 0 (drop from text.old) }
{
    let from = from.min(text.len());
    text.copy_within(from.., 0);
}

// Writes bytes from the output's front and answers how many, or writes nothing where it is too short for all of them.
pub fn deliver(bytes: &[u8], output: &mut [u8]) -> Result<usize, Refused<usize>>
    ensures { written (answered result) output.new ≡ delivered bytes.now output.old }
{
    if output.len() < bytes.len() {
        return Err(Refused {
            refusal: Refusal::OutputShort,
            place: 0,
        });
    }
    put_all(output, 0, bytes);
    Ok(bytes.len())
}
