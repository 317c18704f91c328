// Writes the program file that a listing gives: tgsi_read LISTING OUT. Standard output has `wrote N bytes` or the refusal alone, whatever
// the files are called, so that the installed command can go by its first word.
#![tactic(auto)]

ghost use Rattle.std.specs.Prelude.{◌≡◌, IfSome, length};
ghost use Rattle.io.specs.Counts.{IsPrefixLen};

use files::NAME_ROOM;
use std::io;

mod help;
mod pieces;
mod saving;

// The most bytes that the listing of a file of 65,536 bytes can have: a byte comes to at most four, "255" and a space or a line feed.
const LONGEST_LISTING: usize = 262144;

// Writes the file to the name that the second argument gives, and then `wrote N bytes`.
fn save(rt: &HostRuntime, file: &[u8]) -> Option<()> {
    saving::save(rt, 2, file)?;
    files::ok_or_told(
        rt,
        b"standard output",
        println!(rt; "wrote {} bytes", file.len()),
    )
}

fn read(rt: &HostRuntime, text: &[u8]) -> Option<()> {
    let mut file = [0u8; 65536];
    let n = report::wrote_or_refused(rt, listing::read(text, &mut file))?;
    save(rt, &file[..n])
}

// Puts an open listing at the start of a buffer. One that is longer than any is refused here and not taken.
fn listing_text<F: io::Read>(
    rt: &HostRuntime,
    file: &mut F,
    path: &[u8],
    text: &mut [u8],
) -> Option<usize>
    requires { length text.old ≡ 262145 }
    ensures { IfSome result (λ n. IsPrefixLen n text.new) }
{
    let count = files::fill(rt, file, path, text)?;
    if count <= LONGEST_LISTING {
        return Some(count);
    }
    pieces::refuse(rt, file, path, text);
    None
}

// Reads a listing by its name, and writes its file. The array has one byte more than any listing.
fn read_path(rt: &HostRuntime, path: &[u8]) -> Option<()> {
    let mut file = files::open(rt, path)?;
    let mut text = [0u8; 262145];
    let n = listing_text(rt, &mut file, path, &mut text)?;
    drop(file);
    read(rt, &text[..n])
}

// The same of the file that the first argument names. None: a line has said what is wrong.
fn read_named(rt: &HostRuntime) -> Option<()> {
    let mut path = [0u8; NAME_ROOM];
    let n = files::name_of(rt, 1, b"listing", &mut path)?;
    read_path(rt, &path[..n])
}

fn main(rt: HostRuntime) {
    files::run_or_help(&rt, 2..3, help::TEXT, read_named);
}
