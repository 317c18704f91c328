// What comes next after an instruction: by the prepared rows, and for a SWITCH along its labels.
#![tactic(auto)]

ghost use Rattle.std.specs.Prelude.{◌≡◌};
ghost use Rattle.blocks.specs.Control.{op_of};
ghost use Rattle.blocks.specs.Table.{place_in, row_in};
ghost use Rattle.blocks.specs.Run.{comes_next};
ghost use Rattle.sequencer.specs.Labels.{ops_of, cases_of};

use crate::labels::after_label;
use crate::prepared::{jump_of, label_of};
use blocks::control;

mod labels;
pub mod prepared;

// What comes next after instruction n, which has this kind, x being what a UIF or SWITCH looks at.
pub fn next_after(
    file: &[u8],
    rows: &[u32],
    immediates: &[u32],
    n: u32,
    kind: u8,
    x: u32,
) -> Option<usize>
    ensures { result ≡ comes_next (ops_of file.now (place_in rows.now)) (cases_of immediates.now file.now (place_in rows.now)) (row_in rows.now) (op_of kind) x n }
{
    let after = n as usize + 1;
    match kind {
        control::ELSE => Some(jump_of(rows, n) as usize),
        control::ENDLOOP..=control::CONT => Some(jump_of(rows, n) as usize),
        control::END => None,
        control::UIF => {
            if x == 0 {
                Some(jump_of(rows, n) as usize)
            } else {
                Some(after)
            }
        }
        control::SWITCH => Some(after_label(
            file,
            rows,
            immediates,
            x,
            label_of(rows, n),
            jump_of(rows, n) as usize,
        )),
        _ => Some(after),
    }
}
