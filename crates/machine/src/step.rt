// One step: the instruction's effect and what comes next, by a match on the kind with ranges.
ghost use Rattle.std.specs.Prelude.{◌≡◌, drop};
ghost use Rattle.blocks.specs.Table.{row_in};
ghost use Rattle.blocks.specs.Run.{step as step_of};
ghost use Rattle.effects.specs.Effect.{state};
ghost use Rattle.machine.specs.Step.{machine_in, stepped};

use crate::reading::read_sources;
use effects::effect::effect;
use readers::{byte_at, destination_at};
use sequencer::next_after;
use sequencer::prepared::place_of;
use sources::bank::Bank;
use sources::parts;

// The bytes from a place on, none past the end.
fn bytes_from(file: &[u8], at: usize) -> &[u8]
    ensures { result.now ≡ drop at file.now }
{
    &file[at.min(file.len())..]
}

// What is carried out: a file, the rows of its table, and the bank that its operands read.
#[derive(Clone, Copy)]
pub struct Code<'a> {
    pub file: &'a [u8],
    pub rows: &'a [u32],
    pub bank: &'a Bank,
}

impl Code<'_> {
    // Carries out instruction n of the prepared rows.
    pub fn step(&self, n: u32, registers: &mut [u32], memory: &mut [u32]) -> Option<usize>
        ensures { stepped result registers.new memory.new ≡ step_of (machine_in self.now) (row_in self.now.rows.now) n (state registers.old memory.old) }
    {
        let Code { file, rows, bank } = *self;
        let after = n as usize + 1;
        let bytes = bytes_from(file, place_of(rows, n) as usize);
        let kind = byte_at(bytes, 0);
        let mut sources = [[0u32; 4]; 4];
        read_sources(kind, bytes, bank, registers, &mut sources);
        let x = sources[0][0];
        match kind {
            0x10..=0x70 => {
                effect(kind, destination_at(bytes, 1), &sources, registers, memory);
                Some(after)
            }
            0x71..=0xff => next_after(file, rows, parts::immediates(bank), n, kind, x),
            _ => Some(after),
        }
    }
}
