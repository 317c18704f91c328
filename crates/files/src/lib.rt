// The words that a program is started with, and the files that they name. What is wrong is told on standard error. No contract can
// say what is read or written.
#![tactic(auto)]

mod reading;
mod reasons;

ghost use Rattle.std.specs.Prelude.{◌<◌, IfSome};
ghost use Rattle.io.specs.Counts.{IsPrefixLen};

pub use reading::{fill, open, text_of};
pub use reasons::{fail, ok_or_told};
use std::env::{Env, FillError};
use std::io;
use std::ops::Range;

// As many bytes as the longest name that the system takes, and the 0 that ends it.
pub const NAME_ROOM: usize = 4096;

// The system's numbers for a word that is missing, and for one that does not fit.
const NO_WORD: i32 = 22;

const NAME_TOO_LONG: i32 = 36;

// How many bytes lie at the start of a buffer, and how many more the file has.
#[derive(Clone, Copy)]
pub struct Start {
    pub count: usize,
    pub rest: u64,
}

// Whether the program was started with an argument of this number; its own name is number 0.
pub fn is_given(rt: &impl Env, argument: usize) -> bool
    ensures { Unit {0} }
{
    !matches!(rt.arg(argument, &mut []), Err(FillError::NotPresent))
}

// Whether the first argument asks for help.
pub fn is_help_asked_for(rt: &impl Env) -> bool
    ensures { Unit {0} }
{
    let mut word = [0u8; NAME_ROOM];
    match rt.arg(1, &mut word) {
        Ok(n) => matches!(&word[..n], b"--help" | b"-h"),
        Err(_) => false,
    }
}

// Runs a program that takes so many arguments. Where the first one asks for help that is written instead, and where they are fewer or more
// it is written on standard error.
pub fn run_or_help<F: FnOnce(&HostRuntime) -> Option<()>>(
    rt: &HostRuntime,
    arguments: Range<usize>,
    help: &str,
    run: F,
)
    requires { F.IsAlwaysCallable run }
    ensures { Unit {0} }
{
    if is_help_asked_for(rt) {
        let _ = rt.write_all(help.as_bytes());
    } else if !is_given(rt, arguments.start) || is_given(rt, arguments.end) {
        let _ = rt.stderr().write_all(help.as_bytes());
    } else {
        let _ = run(rt);
    }
}

// A line with what is wrong with a file.
pub fn fault_line(rt: &HostRuntime, path: &[u8], fault: &[u8])
    ensures { Unit {0} }
{
    reasons::line(rt, path, b"", fault);
}

// Why a word is no name.
fn reason(error: FillError) -> io::Error {
    match error {
        FillError::NotPresent => io::Error::from_raw_os_error(NO_WORD),
        FillError::TooLong => io::Error::from_raw_os_error(NAME_TOO_LONG),
    }
}

// Puts the name that an argument gives at the start of a buffer. One that does not fit is no name.
pub fn name_of(rt: &HostRuntime, argument: usize, title: &[u8], path: &mut [u8]) -> Option<usize>
    ensures { IfSome result (λ n. IsPrefixLen n path.new) }
{
    ok_or_told(rt, title, rt.arg(argument, path).map_err(reason))
}

// Puts a file at the start of a buffer, as much of it as fits.
fn read_named(rt: &HostRuntime, path: &[u8], buffer: &mut [u8]) -> Option<usize>
    ensures { IfSome result (λ n. IsPrefixLen n buffer.new) }
{
    let mut file = reading::open(rt, path)?;
    reading::fill(rt, &mut file, path, buffer)
}

// The same of the file that an argument names.
pub fn read_bytes(
    rt: &HostRuntime,
    argument: usize,
    title: &[u8],
    buffer: &mut [u8],
) -> Option<usize>
    ensures { IfSome result (λ n. IsPrefixLen n buffer.new) }
{
    let mut path = [0u8; NAME_ROOM];
    let n = name_of(rt, argument, title, &mut path)?;
    read_named(rt, &path[..n], buffer)
}

// As much of an open file as fits into a buffer, with what follows counted.
fn start_of<F: io::Read>(
    rt: &HostRuntime,
    file: &mut F,
    path: &[u8],
    buffer: &mut [u8],
) -> Option<Start>
    ensures within { IfSome result (λ start. IsPrefixLen start.count buffer.new) }
    ensures rest { IfSome result (λ start. start.rest < 9223372036854775808) }
{
    let count = reading::fill(rt, file, path, buffer)?;
    let rest = reading::rest_of(rt, file, path)?;
    Some(Start { count, rest })
}

// The same of a file by its name.
pub fn start_named(rt: &HostRuntime, path: &[u8], buffer: &mut [u8]) -> Option<Start>
    ensures within { IfSome result (λ start. IsPrefixLen start.count buffer.new) }
    ensures rest { IfSome result (λ start. start.rest < 9223372036854775808) }
{
    let mut file = reading::open(rt, path)?;
    start_of(rt, &mut file, path, buffer)
}
