// The help, on standard output where it is asked for, and on standard error where the arguments are wrong.
pub const TEXT: &str = "\
usage: tgsi_read LISTING OUT, or tgsi_read --help (-h)
Writes the program file that a listing gives to OUT, by way of OUT.part, which then takes the place of a file OUT.
If the listing is refused or cannot be used, OUT stays as it is, and none is made. If standard output alone fails, OUT is written.
Standard output: `wrote N bytes`. Standard error: `refused NUMBER PLACE` and that in words, files that cannot be used.
PLACE counts from 0: of refusal 30 in the listing, of any other in the program file.
Exit status: 0 written, 2 refused, 3 files or arguments that cannot be used.
Where it is not installed, target/bin/tgsi_read has exit status 0 always, and writes refusals on standard output.
";
