// Component-wise results: each word is made of one component of each source, and written where the mask has it.
#![tactic(auto)]

ghost use Rattle.std.specs.Prelude.{◌≡◌, ◌<◌};
ghost use Rattle.destinations.specs.Destinations.{if_masked, masked, placed};
ghost use Rattle.componentwise.specs.Components.{result_words};

use destinations::is_masked;
use destinations::lent::set_word;
use results::word;

// Writes component i of a result on words; one that the mask does not have is left.
#[tactic(auto, using(crate::proofs::Components::result_at), unfolding(destinations::specs::Destinations::if_masked))]
fn put_word(registers: &mut [u32], first: u32, mask: u8, kind: u8, sources: &[[u32; 4]; 4], i: u8)
    requires { i < 4 }
    ensures { registers.new ≡ if_masked mask i (placed first (result_words kind sources.now)) registers.old }
{
    if is_masked(mask, i) {
        let k = i as usize;
        let w = word(
            kind,
            sources[0][k],
            sources[1][k],
            sources[2][k],
            sources[3][k],
        );
        set_word(registers, first as usize + k, w);
    }
}

// Writes the components of a result on words that the mask has.
pub fn write_words(registers: &mut [u32], first: u32, mask: u8, kind: u8, sources: &[[u32; 4]; 4])
    ensures { registers.new ≡ masked mask (placed first (result_words kind sources.now)) registers.old }
{
    for i in 0..4 {
        put_word(registers, first, mask, kind, sources, i);
    }
}
