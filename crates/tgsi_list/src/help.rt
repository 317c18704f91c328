// The help, on standard output where it is asked for, and on standard error where the arguments are wrong.
pub const TEXT: &str = "\
usage: tgsi_list PROGRAM, or tgsi_list --help (-h)
Standard output: a line for each record of a program file: its kind, then its fields in file order, in decimal.
Standard error: `refused NUMBER PLACE` and that in words, a file that cannot be used.
Exit status: 0 listed, 2 refused, 3 files or arguments that cannot be used.
Where it is not installed, target/bin/tgsi_list has exit status 0 always, and writes refusals on standard output.
";
