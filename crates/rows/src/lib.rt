// What a table's rows are made of, by the kinds of a program's instructions: the jump and the label of each, and where the
// instructions in a block's lists go.
#![tactic(auto, unfolding(blocks::specs::Control::op_of))]

ghost use Rattle.std.specs.Prelude.{◌≡◌, cond, ◌+◌};
ghost use Rattle.blocks.specs.Control.{is_label, op_of};
ghost use Rattle.blocks.specs.Table.{jump_of, first_label};
ghost use Rattle.lists.specs.Lists.{op_in, list_in, block_in};
ghost use Rattle.rows.specs.Opened.{opened_by, inside_of};

use blocks::Targets;
use blocks::control::{BGNLOOP, BRK, CONT, ELSE, ENDLOOP, SWITCH, UIF, is_label};
use lists::{next_label, past, past_block};

// The block that an instruction opens: the numbers past it and past its first list, and the instruction's jump and label.
#[derive(Clone, Copy)]
pub struct Opened {
    pub end: usize,
    pub second: usize,
    pub jump: usize,
    pub label: usize,
}

// The targets in the list of a loop or a SWITCH, of which no ELSE is the last instruction.
fn body_targets(brk: usize, cont: usize) -> Targets
    ensures { result ≡ record { brk = brk; cont = cont; after = 0 } }
{
    Targets {
        brk,
        cont,
        after: 0,
    }
}

// The targets in the lists of a block of a kind, the first of which starts at instruction `first`, and which ends before `end`.
pub fn inside(kind: u8, first: usize, end: usize, targets: Targets) -> Targets
    ensures { result ≡ inside_of (op_of kind) first end targets }
{
    match kind {
        BGNLOOP => body_targets(end, first),
        SWITCH => body_targets(end, targets.cont),
        _ => Targets {
            after: end,
            ..targets
        },
    }
}

// The block that instruction n opens; where it opens none, one that ends where it starts.
#[tactic(auto, using(crate::proofs::Blocks::opened))]
pub fn block_at(kinds: &[u8], n: usize) -> Opened
    ensures { result ≡ opened_by (op_in kinds.now) n (block_in kinds.now n) }
{
    let end = past_block(kinds, n);
    let (second, jump, label) = match kinds.get(n) {
        Some(&UIF) => {
            let second = past(kinds, n + 1);
            (second, second, 0)
        }
        Some(&SWITCH) => (end, end, next_label(kinds, n + 1)),
        _ => (end, 0, 0),
    };
    Opened {
        end,
        second,
        jump,
        label,
    }
}

// The jump of an instruction that opens no block: of ELSE, ENDLOOP, BRK and CONT.
pub fn jump_of(kind: u8, targets: Targets) -> usize
    ensures { result ≡ jump_of (op_of kind) targets }
{
    match kind {
        ELSE => targets.after,
        ENDLOOP | CONT => targets.cont,
        BRK => targets.brk,
        _ => 0,
    }
}

// The label of instruction n, which opens no block: a label has the next one.
pub fn label_of(kinds: &[u8], n: usize) -> usize
    ensures { result ≡ cond (is_label (op_in kinds.now n)) (first_label (op_in kinds.now) (list_in kinds.now (n + 1))) 0 }
{
    match kinds.get(n) {
        Some(&kind) if is_label(kind) => next_label(kinds, n + 1),
        _ => 0,
    }
}
