// Runs programs just within and just past each limit of document 01, and writes a line for each. The file `stdout` beside `src`
// holds the lines that are expected: they were worked out from document 01, as the comment at each case says, and not taken
// from a run.
#![tactic(auto)]

use build::{Builder, ROOM};
use lent::{Lent, MOST};

mod build;
mod lent;

// `NAME N: `, and what the run of a file comes to.
fn case(rt: &impl Print, name: &str, n: usize, file: &[u8], lent: Lent) {
    let _ = print!(rt; "{name} {n}: ");
    outcomes::outcome_line(rt, lent::run(file, lent));
}

// An immediate, blocks inside each other, 16 deep and 17 deep, and END.
fn depth(rt: &impl Print, name: &str, opening: &[u8], closing: &[u8]) {
    for deep in 16..=17 {
        let mut file = Builder::new();
        file.immediates(1);
        file.repeat(opening, deep);
        file.repeat(closing, deep);
        case(rt, name, deep as usize, file.end(), MOST);
    }
}

// "At most 16 are open." With 16: each block's opening is a step, and each block has one more, ENDIF, BRK (which goes past
// ENDLOOP) or ENDSWITCH (SWITCH goes past its CASE); with END that is 33. With 17: "12: a 17th open block", at the 17th
// opening. The immediate has 17 bytes, so that is 17 + 16 * 6 = 113 for UIF, 17 + 16 = 33 for BGNLOOP and, with a CASE of 6
// bytes after each SWITCH, 17 + 16 * 12 = 209 for SWITCH.
fn depths(rt: &impl Print) {
    let uif = b"\x90\x06\x00\x00\x00\x00";
    let switch = b"\x91\x06\x00\x00\x00\x00\x92\x06\x00\x00\x00\x00";
    depth(rt, "UIF depth", uif, b"\x82");
    depth(rt, "loop depth", b"\x83", b"\x85\x84");
    depth(rt, "SWITCH depth", switch, b"\x88");
}

// So many NOPs, and END.
fn instructions(rt: &impl Print, nops: u32) {
    let mut file = Builder::new();
    file.repeat(b"\x80", nops);
    case(rt, "instructions", nops as usize + 1, file.end(), MOST);
}

// So many immediates, and END.
fn immediates(rt: &impl Print, n: u32) {
    let mut file = Builder::new();
    file.immediates(n);
    case(rt, "immediates", n as usize, file.end(), MOST);
}

// "6: 1,025th instruction or 257th immediate". 1,023 NOPs and END are 1,024 steps. With one NOP more END is the 1,025th
// instruction, at place 1,024. With 256 immediates END is the only step, and the 257th immediate stands at 256 * 17 = 4,352.
fn counts(rt: &impl Print) {
    instructions(rt, 1023);
    instructions(rt, 1024);
    immediates(rt, 256);
    immediates(rt, 257);
}

// The longest file that is accepted: each register has a declaration of its own, for declarations do not overlap, there are 256
// immediates, and each instruction but END is as long as one can be, a BFI.
fn longest_accepted(rt: &impl Print) {
    let bfi =
        b"\x70\x04\x00\x00\x0f\x06\x00\x00\xe4\x00\x06\x00\x00\xe4\x00\x06\x00\x00\xe4\x00\x06\x00\x00\xe4\x00";
    let mut file = Builder::new();
    for (register_file, registers) in [(1, 1024), (2, 32), (3, 32), (4, 256), (5, 1), (7, 1)] {
        file.declare_each(register_file, registers);
    }
    file.immediates(256);
    file.repeat(bfi, 1023);
    let bytes = file.end();
    case(rt, "longest accepted, bytes", bytes.len(), bytes, MOST);
}

// "1: file over 65,536 bytes". No file of 65,536 bytes is accepted: the longest that is has 1,346 declarations of 6 bytes,
// 256 immediates of 17, 1,023 instructions of 25 and END, 38,004 bytes, and makes 1,024 steps. So a file of 65,536 NOPs shows
// that this length is not refused as such: it gets 6 at its 1,025th instruction, place 1,024, and one of 65,537 gets 1 at 0.
fn lengths(rt: &impl Print) {
    longest_accepted(rt);
    let nops = [0x80; ROOM];
    case(rt, "bytes", 65536, &nops[..65536], MOST);
    case(rt, "bytes", 65537, &nops, MOST);
}

// Declarations of IN[31] and CONST[1023], and END, one instruction, with each of two numbers of lent words of a sort.
fn lent_cases<F: Fn(usize) -> Lent>(rt: &impl Print, name: &str, numbers: [usize; 2], lent: F)
    requires { F.IsAlwaysCallable lent }
{
    let program = b"\x01\x02\x1f\x00\x1f\x00\x01\x01\xff\x03\xff\x03\x89";
    for n in numbers {
        case(rt, name, n, program, lent(n));
    }
}

// "20-24 .. in order, place 0: inputs, constants shorter than 4·(highest declared+1) words; registers under 1,156; working
// words under 3 per instruction; memory over 16,384 words." The program asks for 128, 4,096, 1,156 and 3 words, and with
// enough of each it ends in 1 step.
fn lent_words(rt: &impl Print) {
    let lent = Lent { work: 3, ..MOST };
    let inputs = |inputs| Lent { inputs, ..lent };
    let constants = |constants| Lent { constants, ..lent };
    let registers = |registers| Lent { registers, ..lent };
    let work = |work| Lent { work, ..lent };
    let memory = |memory| Lent { memory, ..lent };
    lent_cases(rt, "inputs, words", [128, 127], inputs);
    lent_cases(rt, "constants, words", [4096, 4095], constants);
    lent_cases(rt, "registers, words", [1156, 1155], registers);
    lent_cases(rt, "working words", [3, 2], work);
    lent_cases(rt, "memory, words", [16384, 16385], memory);
}

fn main(rt: HostRuntime) {
    depths(&rt);
    counts(&rt);
    lengths(&rt);
    lent_words(&rt);
}
