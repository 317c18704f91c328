// The nested lists, by the kinds of a program's instructions: where lists and blocks end, and their labels.
#![tactic(auto)]

ghost use Rattle.std.specs.Prelude.{◌≡◌, ◌+◌};
ghost use Rattle.blocks.specs.Lists.{size};
ghost use Rattle.blocks.specs.Table.{first_label};
ghost use Rattle.lists.specs.Lists.{op_in, list_in, block_in};

use blocks::control::{ELSE, UIF, is_label, is_last, is_opening};

// The number past the block that instruction n opens; n itself where it opens none.
#[cycle(past_past_block)]
#[tactic(auto, using(crate::proofs::Readers::sizes))]
pub fn past_block(kinds: &[u8], n: usize) -> usize
    ensures { result ≡ n + size (block_in kinds.now n) }
{
    let Some(&kind) = kinds.get(n) else {
        return n;
    };
    if !is_opening(kind) {
        return n;
    }
    let end = past(kinds, n + 1);
    // A first part that ends with ELSE has a second one after it.
    if kind == UIF && kinds[end - 1] == ELSE {
        past(kinds, end)
    } else {
        end
    }
}

// The number past the list that starts at instruction n.
#[cycle(past_past_block)]
#[tactic(auto, using(crate::proofs::Readers::sizes))]
pub fn past(kinds: &[u8], n: usize) -> usize
    ensures { result ≡ n + size (list_in kinds.now n) }
{
    let mut m = n;
    while let Some(&kind) = kinds.get(m) {
        if is_last(kind) {
            return m + 1;
        }
        m = if is_opening(kind) {
            past_block(kinds, m)
        } else {
            m + 1
        };
    }
    m
}

// The first own label of the list that starts at instruction n; as in the table, 0 for none.
#[tactic(auto, using(crate::proofs::Readers::labels))]
pub fn next_label(kinds: &[u8], n: usize) -> usize
    ensures { result ≡ first_label (op_in kinds.now) (list_in kinds.now n) }
{
    let mut m = n;
    while let Some(&kind) = kinds.get(m) {
        if is_last(kind) {
            return 0;
        }
        if is_label(kind) {
            return m;
        }
        m = if is_opening(kind) {
            past_block(kinds, m)
        } else {
            m + 1
        };
    }
    0
}
