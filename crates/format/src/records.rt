// How long a file may be, and the bounds of a record in it.

// The longest file that is read.
pub const LONGEST: usize = 65536;

// Where a record starts, and how many bytes it has.
#[derive(Clone, Copy)]
pub struct Bounds {
    pub start: usize,
    pub length: usize,
}
