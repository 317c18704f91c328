// The code that fills the prepared table. Two readers that call each other do it: `block` reads a list of instructions,
// `opening` the block that one of them opens.
#![tactic(auto)]

ghost use Rattle.std.specs.Prelude.{◌≡◌, true, ◌∷◌, [], ◌+◌, ◌*◌, ◌<◌, ◌≤◌, length};
ghost use Rattle.std.proofs.lemmas.List.Edits.{sets};
ghost use Rattle.format.specs.Records.{longest, next};
ghost use Rattle.blocks.specs.Lists.{size};
ghost use Rattle.blocks.specs.Run.{most_instructions};
ghost use Rattle.blocks.specs.Table.{row_words};
ghost use Rattle.table.specs.Prepared.{filled};
ghost use Rattle.lists.specs.Lists.{op_in, list_in, block_in};
ghost use Rattle.blocks.specs.Nesting.{opens};
ghost use Rattle.table.specs.Inner.Rows.{words_in, Located, Near};

use blocks::control::{is_last, is_opening};
use blocks::{MOST_INSTRUCTIONS, ROW_WORDS, Targets};
use format::records::LONGEST;
use readers::byte_at;
use records::size_at;
use rows::{block_at, inside, jump_of, label_of};

// Writes row n.
fn put_row(work: &mut [u32], n: usize, place: u32, jump: usize, label: usize)
    requires { (row_words * n + row_words ≤ length work.old) × (jump ≤ most_instructions) × (label ≤ most_instructions) }
    ensures { work.new ≡ sets work.old (row_words * n) (place ∷ jump ∷ label ∷ []) }
{
    let at = ROW_WORDS * n;
    work[at] = place;
    work[at + 1] = jump as u32;
    work[at + 2] = label as u32;
}

// A program's instructions: the kind and the byte place of each. They stand apart, since `lists` and `rows` look at kinds alone.
#[derive(Clone, Copy)]
struct Program<'a> {
    kinds: &'a [u8],
    places: &'a [u32],
    ghost few: { length kinds.now ≤ most_instructions },
    ghost placed: { length places.now ≡ length kinds.now },
}

impl Program<'_> {
    // Reads the list that starts at instruction n, and writes its rows.
    #[cycle(block_opening)]
    #[tactic(auto, using(crate::proofs::Rows::written))]
    fn block(&self, work: &mut [u32], n: usize, targets: Targets)
        requires room { row_words * length self.now.kinds.now ≤ length work.old }
        requires near { Near targets }
        ensures { work.new ≡ sets work.old (row_words * n) (words_in self.now.kinds.now self.now.places.now targets n (list_in self.now.kinds.now n)) }
    {
        let mut m = n;
        while let Some(&kind) = self.kinds.get(m) {
            if is_opening(kind) {
                m = self.opening(work, m, targets);
            } else {
                put_row(
                    work,
                    m,
                    self.places[m],
                    jump_of(kind, targets),
                    label_of(self.kinds, m),
                );
                if is_last(kind) {
                    return;
                }
                m += 1;
            }
        }
    }

    // Reads the block that instruction n opens, and writes its rows. The number past the block.
    #[cycle(block_opening)]
    fn opening(&self, work: &mut [u32], n: usize, targets: Targets) -> usize
        requires room { row_words * length self.now.kinds.now ≤ length work.old }
        requires near { Near targets }
        requires there { n < length self.now.kinds.now }
        requires opens { opens (op_in self.now.kinds.now n) ≡ true }
        ensures past { result ≡ n + size (block_in self.now.kinds.now n) }
        ensures rows { work.new ≡ sets work.old (row_words * n) (words_in self.now.kinds.now self.now.places.now targets n (block_in self.now.kinds.now n)) }
    {
        let found = block_at(self.kinds, n);
        put_row(work, n, self.places[n], found.jump, found.label);
        let first = n + 1;
        let targets_inside = inside(self.kinds[n], first, found.end, targets);
        self.block(work, first, targets_inside);
        if found.second < found.end {
            self.block(work, found.second, targets_inside);
        }
        found.end
    }
}

// The place that the walk reaches from a place after one record.
#[tactic(auto, using(records::proofs::Walk::walk_fits), unfolding(format::specs::Records::next))]
fn next_place(file: &[u8], at: usize) -> usize
    requires { (at ≤ length file.now) × (length file.now ≤ longest) }
    ensures { result ≡ next file.now at }
{
    match size_at(file, at) {
        0 => file.len(),
        size => at + size,
    }
}

// The kinds and byte places of a program's first instructions, from the front of each array.
#[derive(Clone, Copy)]
struct Instructions {
    kinds: [u8; 1024],
    places: [u32; 1024],
}

// The first `count` instructions from a byte place on.
#[tactic(auto, using(records::proofs::Walk::place_fits))]
fn locate(file: &[u8], start: usize, count: usize) -> Instructions
    requires { (start ≤ length file.now) × (length file.now ≤ longest) × (count ≤ most_instructions) }
    ensures { Located file.now start count result.kinds result.places }
{
    let mut kinds = [0u8; 1024];
    let mut places = [0u32; 1024];
    let mut at = start;
    for n in 0..count {
        kinds[n] = byte_at(file, at);
        places[n] = at as u32;
        at = next_place(file, at);
    }
    Instructions { kinds, places }
}

// Fills the table of a checked program: `count` instructions, the first at the byte place `start` of the file. Words past
// the last row stay, and all words where the table cannot be made (`filled`).
//
// The cost is in proportion to instructions times open blocks. `block_at` looks ahead for the end of its block, so an
// instruction is passed once for each block around it. `next_label` goes from a label to the next of its own SWITCH, so all
// the labels of a SWITCH together pass its list once. Calls are two deep for each open block, whatever the instructions.
#[tactic(auto, unfolding(crate::specs::Prepared::filled))]
pub fn fill(file: &[u8], start: usize, count: usize, work: &mut [u32])
    ensures { work.new ≡ filled file.now start count work.old }
{
    if LONGEST < file.len()
        || file.len() < start
        || MOST_INSTRUCTIONS < count
        || work.len() < ROW_WORDS * count
    {
        return;
    }
    let found = locate(file, start, count);
    let program = Program {
        kinds: &found.kinds[..count],
        places: &found.places[..count],
    };
    let nowhere = Targets {
        brk: 0,
        cont: 0,
        after: 0,
    };
    program.block(work, 0, nowhere);
}
