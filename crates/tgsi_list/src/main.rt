// Writes the listing of a program file: tgsi_list PROGRAM. Standard output has the listing or the refusal alone, whatever the file is
// called, so that the installed command can go by its first word.
#![tactic(auto)]

mod help;

// No listing of a file of 65,536 bytes is longer: a byte comes to at most four, "255" and a space or a line feed.
fn list(rt: &HostRuntime, program: &[u8]) -> Option<()> {
    let mut listing = [0u8; 262144];
    let n = report::wrote_or_refused(rt, listing::print(program, &mut listing))?;
    files::ok_or_told(rt, b"standard output", rt.write_all(&listing[..n]))
}

// Reads the program, one byte more than a file may have, and lists it. None: a line has said what is wrong.
fn list_named(rt: &HostRuntime) -> Option<()> {
    let mut program = [0u8; 65537];
    let n = files::read_bytes(rt, 1, b"program", &mut program)?;
    list(rt, &program[..n])
}

fn main(rt: HostRuntime) {
    files::run_or_help(&rt, 1..2, help::TEXT, list_named);
}
