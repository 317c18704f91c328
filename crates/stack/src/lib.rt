// The open blocks, in arrays.
#![tactic(auto)]

ghost use Rattle.std.specs.Prelude.{◌≡◌, get_or};
ghost use Rattle.stack.specs.Arrays.{none_open, innermost_is, some_is, innermost_start, popped, recoded};

pub mod codes;

// The open blocks, the outermost first: a code each, and where its words start. `held` is where the words end.
#[derive(Clone, Copy)]
pub struct Blocks {
    pub codes: [u8; 16],
    pub starts: [u16; 16],
    pub depth: u8,
    pub held: u16,
}

pub const MOST_OPEN: u8 = 16;

// No block is open.
pub fn none_open() -> Blocks
    ensures { result ≡ none_open }
{
    Blocks {
        codes: [0; 16],
        starts: [0; 16],
        depth: 0,
        held: 0,
    }
}

// A block's code, the outermost block having the number 0, and 0 outside of the array.
fn code_at(b: Blocks, n: u8) -> u8
    ensures { result ≡ get_or b.codes n 0 }
{
    if MOST_OPEN <= n {
        return 0;
    }
    b.codes[n as usize]
}

// Whether the code of the innermost block is from lo to hi.
pub fn innermost_is(b: Blocks, lo: u8, hi: u8) -> bool
    ensures { result ≡ innermost_is lo hi b }
{
    let n = b.depth;
    if n == 0 {
        return (lo <= 5) & (5 <= hi);
    }
    let code = code_at(b, n - 1);
    (lo <= code) & (code <= hi)
}

// Where the words of the innermost block start.
pub fn innermost_start(b: Blocks) -> u16
    ensures { result ≡ innermost_start b }
{
    let n = b.depth;
    if n == 0 {
        return b.held;
    }
    if MOST_OPEN < n {
        return 0;
    }
    let last = (n - 1) as usize;
    b.starts[last]
}

// Whether the code of some block is from lo to hi.
#[tactic(auto, using(crate::proofs::Steps::some_found, crate::proofs::Steps::none_more))]
pub fn some_is(b: Blocks, lo: u8, hi: u8) -> bool
    ensures { result ≡ some_is lo hi b }
{
    for n in 0..b.depth {
        let code = code_at(b, n);
        if (lo <= code) & (code <= hi) {
            return true;
        }
    }
    false
}

// The blocks without the innermost, and without its words.
pub fn popped(b: Blocks) -> Blocks
    ensures { result ≡ popped b }
{
    let n = b.depth;
    let mut c = b;
    if n == 0 {
        return c;
    }
    c.held = innermost_start(b);
    c.depth = n - 1;
    c
}

// The blocks with another code for the innermost.
pub fn recoded(b: Blocks, code: u8) -> Blocks
    ensures { result ≡ recoded code b }
{
    let n = b.depth;
    let mut c = b;
    if n == 0 {
        return c;
    }
    if MOST_OPEN < n {
        return c;
    }
    let last = (n - 1) as usize;
    c.codes[last] = code;
    c
}
