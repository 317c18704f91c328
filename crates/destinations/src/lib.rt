// Lent words, which registers and memory are, read and written one by one (`lent`), and destinations: results written by register
// number to the components of a mask.
#![tactic(auto)]

ghost use Rattle.std.specs.Prelude.{◌≡◌, ◌+◌, set};
ghost use Rattle.words.specs.Word.{is_set};
ghost use Rattle.destinations.specs.Destinations.{if_masked, masked, first_word, placed};

use crate::lent::set_word;
use format::fields::Destination;
use format::files::{ADDR_FROM, OUT, TEMP, TEMP_FROM};

pub mod lent;

// Whether a mask has component i.
pub fn is_masked(mask: u8, i: u8) -> bool
    ensures { result ≡ is_set mask i }
{
    i < 8 && (mask >> i) % 2 == 1
}

#[tactic(auto, unfolding(crate::specs::Destinations::if_masked))]
fn put(registers: &mut [u32], mask: u8, i: u8, first: u32, word: u32)
    ensures { registers.new ≡ if_masked mask i (λ i l. set l (first + i) word) registers.old }
{
    if is_masked(mask, i) {
        set_word(registers, first as usize + i as usize, word);
    }
}

// Where the words of the register begin that a destination names.
#[tactic(auto, unfolding(crate::specs::Destinations::first_word))]
pub fn first_word(d: Destination) -> u32
    ensures { result ≡ first_word d }
{
    let file = d.file;
    match file {
        OUT => 4 * d.index as u32,
        TEMP => TEMP_FROM + 4 * d.index as u32,
        _ => ADDR_FROM,
    }
}

// A result written to the components that a mask has, in the register whose words begin at `first`.
pub fn write(registers: &mut [u32], first: u32, mask: u8, v: [u32; 4])
    ensures { registers.new ≡ masked mask (placed first v) registers.old }
{
    for i in 0..4 {
        put(registers, mask, i, first, v[i as usize]);
    }
}
