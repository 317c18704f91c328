// Memory by byte address: a word that is misaligned or outside reads 0, and its write is dropped.
#![tactic(auto)]

ghost use Rattle.std.specs.Prelude.{◌≡◌, ◌+◌, ◌*◌};
ghost use Rattle.destinations.specs.Destinations.{if_masked};
ghost use Rattle.memory.specs.Memory.{loaded, stored, loaded_from, stored_from};

use destinations::is_masked;
use destinations::lent::{set_word, word_at};

// The word at an address.
#[tactic(auto, unfolding(crate::specs::Memory::loaded))]
pub fn load(memory: &[u32], address: usize) -> u32
    ensures { result ≡ loaded memory.now address }
{
    if address % 4 == 0 {
        word_at(memory, address / 4)
    } else {
        0
    }
}

// Writes the word at an address.
#[tactic(auto, unfolding(crate::specs::Memory::stored))]
pub fn store(memory: &mut [u32], address: usize, word: u32)
    ensures { memory.new ≡ stored memory.old address word }
{
    if address % 4 != 0 {
        return;
    }
    set_word(memory, address / 4, word);
}

// The four words from an address on.
#[tactic(auto, unfolding(crate::specs::Memory::loaded_from, destinations::specs::Destinations::components))]
pub fn load_from(memory: &[u32], address: u32) -> [u32; 4]
    ensures { result ≡ loaded_from memory.now address }
{
    let a = address as usize;
    [
        load(memory, a),
        load(memory, a + 4),
        load(memory, a + 8),
        load(memory, a + 12),
    ]
}

#[tactic(auto, unfolding(destinations::specs::Destinations::if_masked))]
fn store_masked(memory: &mut [u32], mask: u8, i: u8, address: u32, word: u32)
    ensures { memory.new ≡ if_masked mask i (λ i l. stored l (address + 4 * i) word) memory.old }
{
    if is_masked(mask, i) {
        store(memory, address as usize + 4 * i as usize, word);
    }
}

// The words that the mask has, from an address on.
pub fn store_from(memory: &mut [u32], address: u32, mask: u8, v: [u32; 4])
    ensures { memory.new ≡ stored_from memory.old address mask v }
{
    for i in 0..4 {
        store_masked(memory, mask, i, address, v[i as usize]);
    }
}
