// The help, on standard output where it is asked for, and on standard error where the arguments are wrong.
pub const TEXT: &str = "\
usage: tgsi_run PROGRAM [INPUTS [CONSTANTS]], or tgsi_run --help (-h)
Runs a program file with memory of 16,384 words of 0 and a budget of 200,000 steps.
INPUTS and CONSTANTS are files of little-endian 32-bit words, four a register; 128 and 4,096 words can be used.
Standard output: `ended STEPS`, or `halted STEPS NEXT` and that in words, and a line `OUT i x y z w` for each declared
OUT register. Standard error: `refused NUMBER PLACE` and that in words, files that cannot be used, words that are not.
Exit status: 0 ended, 1 halted, 2 refused, 3 files or arguments that cannot be used.
Where it is not installed, target/bin/tgsi_run has exit status 0 always, and writes refusals on standard output.
";
