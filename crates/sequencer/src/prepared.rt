// The prepared rows in lent words.
ghost use Rattle.std.specs.Prelude.{◌≡◌};
ghost use Rattle.blocks.specs.Table.{place_in, row_in};

use blocks::ROW_WORDS;
use destinations::lent::word_at;

// The words of row n, 0 outside the rows.
pub fn place_of(rows: &[u32], n: u32) -> u32
    ensures { result ≡ place_in rows.now n }
{
    word_at(rows, ROW_WORDS * n as usize)
}

pub fn jump_of(rows: &[u32], n: u32) -> u32
    ensures { result ≡ (row_in rows.now n).jump }
{
    word_at(rows, ROW_WORDS * n as usize + 1)
}

pub fn label_of(rows: &[u32], n: u32) -> u32
    ensures { result ≡ (row_in rows.now n).label }
{
    word_at(rows, ROW_WORDS * n as usize + 2)
}
