// Where a SWITCH goes: the walk along its labels, which looks at all CASEs before it takes DEFAULT.
ghost use Rattle.std.specs.Prelude.{◌≡◌, get_or};
ghost use Rattle.blocks.specs.Table.{place_in, row_in};
ghost use Rattle.blocks.specs.Run.{walk, most_instructions};
ghost use Rattle.sequencer.specs.Labels.{ops_of, cases_of};
ghost use Rattle.sequencer.specs.Inner.Cases.{is_case_at};

use crate::prepared::{label_of, place_of};
use blocks::{MOST_INSTRUCTIONS, control};
use readers::{byte_at, case_word};

// Whether the record at a place of the file, which has this kind, is the CASE of x.
#[tactic(auto, using(crate::proofs::Walks::case_by_word, crate::proofs::Walks::no_case))]
fn is_case(file: &[u8], immediates: &[u32], place: usize, kind: u8, x: u32) -> bool
    requires { kind ≡ get_or file.now place 0 }
    ensures { result ≡ is_case_at immediates.now file.now place x }
{
    kind == control::CASE && case_word(immediates, file, place) == x
}

// The instruction that a SWITCH on x goes to: its first label and the instruction after its ENDSWITCH are given.
pub fn after_label(
    file: &[u8],
    rows: &[u32],
    immediates: &[u32],
    x: u32,
    label: u32,
    jump: usize,
) -> usize
    ensures { result ≡ walk (ops_of file.now (place_in rows.now)) (cases_of immediates.now file.now (place_in rows.now)) (row_in rows.now) most_instructions x label jump }
{
    let mut m = label;
    let mut other = jump;
    for _ in 0..MOST_INSTRUCTIONS {
        // A row has 0 for no label.
        if m == 0 {
            return other;
        }
        let place = place_of(rows, m) as usize;
        let kind = byte_at(file, place);
        if is_case(file, immediates, place, kind, x) {
            return m as usize + 1;
        }
        if kind == control::DEFAULT {
            other = m as usize + 1;
        }
        m = label_of(rows, m);
    }
    other
}
