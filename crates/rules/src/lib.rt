// The rules of nesting: refusals 10 to 12.
#![tactic(auto)]

ghost use Rattle.std.specs.Prelude.{◌≡◌};
ghost use Rattle.format.specs.Refusals.{number_due};
ghost use Rattle.blocks.specs.Control.{op_of};
ghost use Rattle.rules.specs.Kept.{nesting_kept, switch_kept, nesting_refusal};

use blocks::control;
use blocks::control::is_opening;
use format::refusals::Refusal;
use stack::{Blocks, MOST_OPEN, codes, innermost_is, innermost_start, some_is};

// Whether an instruction of a kind is well nested: else 10.
#[tactic(auto, unfolding(crate::specs::Kept::nesting_kept, blocks::specs::Control::op_of))]
fn nesting_kept(b: Blocks, kind: u8) -> bool
    ensures { result ≡ nesting_kept (op_of kind) b }
{
    match kind {
        control::ELSE => innermost_is(b, codes::UIF, codes::UIF),
        control::ENDIF => innermost_is(b, codes::UIF, codes::ELSE),
        control::ENDLOOP => innermost_is(b, codes::LOOP, codes::LOOP),
        control::BRK => some_is(b, codes::LOOP, codes::DEFAULTED),
        control::CONT => some_is(b, codes::LOOP, codes::LOOP),
        control::DEFAULT => innermost_is(b, codes::SWITCH, codes::DEFAULTED),
        control::ENDSWITCH => innermost_is(b, codes::SWITCH, codes::DEFAULTED),
        control::END => b.depth == 0,
        control::CASE => innermost_is(b, codes::SWITCH, codes::DEFAULTED),
        _ => true,
    }
}

// Whether an instruction of a kind keeps the rules of a SWITCH: else 11. For a CASE x is its word.
#[tactic(auto, unfolding(crate::specs::Kept::switch_kept, blocks::specs::Control::op_of))]
fn switch_kept(b: Blocks, values: &[u32; 1024], links: &[u16; 2048], kind: u8, x: u32) -> bool
    ensures { result ≡ switch_kept (op_of kind) x b values.now links.now }
{
    let start = innermost_start(b);
    let wordless = b.held <= start;
    match kind {
        control::DEFAULT => innermost_is(b, codes::SWITCH, codes::SWITCH),
        control::ENDSWITCH => innermost_is(b, codes::SWITCH, codes::DEFAULTED) & !wordless,
        control::CASE => innermost_is(b, codes::SWITCH, codes::SWITCH)
            & !tree::has_value(values, links, start, b.held, x),
        _ => !(innermost_is(b, codes::SWITCH, codes::SWITCH) & wordless),
    }
}

// Refuses an instruction of a kind with the lowest of 10, 11 and 12 that applies; for a CASE x is its word.
#[tactic(auto, unfolding(crate::specs::Kept::nesting_refusal))]
pub fn nesting_refusal(
    b: Blocks,
    values: &[u32; 1024],
    links: &[u16; 2048],
    kind: u8,
    x: u32,
) -> Result<(), Refusal>
    ensures { number_due result ≡ nesting_refusal b values.now links.now kind x }
{
    if !nesting_kept(b, kind) {
        return Err(Refusal::NestingBroken);
    }
    if !switch_kept(b, values, links, kind, x) {
        return Err(Refusal::SwitchRuleBroken);
    }
    if is_opening(kind) & (MOST_OPEN <= b.depth) {
        return Err(Refusal::TooDeep);
    }
    Ok(())
}
