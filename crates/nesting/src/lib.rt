// The open blocks from instruction to instruction, by the rules of nesting. The words of the CASEs of all open SWITCHes stand in
// one array, those of each SWITCH from where it starts, and are a tree.
#![tactic(auto)]

ghost use Rattle.std.specs.Prelude.{◌≡◌, true, ◌<◌};
ghost use Rattle.blocks.specs.Control.{op_of};
ghost use Rattle.blocks.specs.Nesting.{opens};
ghost use Rattle.nesting.specs.Left.{nested_as, leaving, pushed, labelled, left_after, nest_of};

use blocks::control;
use format::refusals::Refusal;
use rules::nesting_refusal;
use stack::{Blocks, codes, innermost_start, popped, recoded};

const MOST_WORDS: u16 = 1024;

// The blocks with one more inside them, which has no words.
fn pushed(b: Blocks, code: u8) -> Blocks
    requires { b.depth < 16 }
    ensures { result ≡ pushed code b }
{
    let n = b.depth as usize;
    let mut c = b;
    c.codes[n] = code;
    c.starts[n] = b.held;
    c.depth = b.depth + 1;
    c
}

// The blocks with one word more for the innermost.
fn labelled(b: Blocks, values: &mut [u32; 1024], links: &mut [u16; 2048], x: u32) -> Blocks
    ensures { leaving result values.new links.new ≡ labelled x b values.old links.old }
{
    let n = b.held;
    if MOST_WORDS <= n {
        return b;
    }
    let place = tree::place_of(values, links, innermost_start(b), n, x);
    tree::hang(links, place, n);
    values[n as usize] = x;
    let mut c = b;
    c.held = n + 1;
    c
}

// The blocks that are open after an instruction of a kind that no rule refuses.
#[tactic(auto, unfolding(crate::specs::Left::left_after, blocks::specs::Control::op_of))]
fn open_after(
    b: Blocks,
    values: &mut [u32; 1024],
    links: &mut [u16; 2048],
    kind: u8,
    x: u32,
) -> Blocks
    requires { opens (op_of kind) ≡ true → b.depth < 16 }
    ensures { leaving result values.new links.new ≡ left_after (op_of kind) x b values.old links.old }
{
    match kind {
        control::ELSE => recoded(b, codes::ELSE),
        control::ENDIF => popped(b),
        control::BGNLOOP => pushed(b, codes::LOOP),
        control::ENDLOOP => popped(b),
        control::DEFAULT => recoded(b, codes::DEFAULTED),
        control::ENDSWITCH => popped(b),
        control::UIF => pushed(b, codes::UIF),
        control::SWITCH => pushed(b, codes::SWITCH),
        control::CASE => labelled(b, values, links, x),
        _ => b,
    }
}

// The blocks that are open after an instruction of a kind, or its refusal; for a CASE x is its word.
#[tactic(auto, using(format::proofs::Numbered::numbered), unfolding(crate::specs::Left::nest_of, rules::specs::Kept::nesting_refusal))]
pub fn nest(
    b: Blocks,
    values: &mut [u32; 1024],
    links: &mut [u16; 2048],
    kind: u8,
    x: u32,
) -> Result<Blocks, Refusal>
    ensures { record { nested = nested_as result; values = values.new; links = links.new } ≡ nest_of b values.old links.old kind x }
{
    nesting_refusal(b, values, links, kind, x)?;
    Ok(open_after(b, values, links, kind, x))
}
