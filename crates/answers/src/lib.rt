// What the C interface answers: structs that C knows, and each answer of the library put into their words.
#![tactic(auto)]

ghost use Rattle.std.specs.Prelude.{◌≡◌};
ghost use Rattle.checker.specs.Check.{told};
ghost use Rattle.runner.specs.Answers.{run_answer};
ghost use Rattle.text.specs.Output.{answered};
ghost use Rattle.answers.specs.Words.{words, told_words, answer_of, in_word, filled_words, part_of};

use format::records::Bounds;
use format::refusals::Refused;
use runner::Outcome;

// Status 0: done, with the number of instructions (check and prepare), of steps (run) or of bytes written (print and read)
// first. 1: halted, with the steps first and the next instruction's number second. 2: refused, with the refusal's number first
// and its place second. Words that a status does not use are 0.
#[repr(C)]
#[derive(Clone, Copy)]
pub struct Answer {
    pub status: u32,
    pub first: u32,
    pub second: u32,
}

// Where a record lies in the file, and how many bytes it has.
#[repr(C)]
#[derive(Clone, Copy)]
pub struct Part {
    pub start: usize,
    pub length: usize,
}

const DONE: u32 = 0;

const HALTED: u32 = 1;

const REFUSED: u32 = 2;

fn done(count: u32) -> Answer
    ensures { result ≡ words 0 count 0 }
{
    Answer {
        status: DONE,
        first: count,
        second: 0,
    }
}

// A refusal by its number; also one whose number is no refusal's.
pub fn refused(number: u8, place: u32) -> Answer
    ensures { result ≡ words 2 number place }
{
    Answer {
        status: REFUSED,
        first: number as u32,
        second: place,
    }
}

// What `check` and `prepare` answered, in words.
impl From<Result<u32, Refused<u32>>> for Answer {
    ghost from_gives = { λ said answer. answer ≡ told_words (told said) };

    fn from(said: Result<u32, Refused<u32>>) -> Answer {
        match said {
            Ok(instructions) => done(instructions),
            Err(Refused { refusal, place }) => refused(refusal.number(), place),
        }
    }
}

// What `run` answered.
impl From<Result<Outcome, Refused<u32>>> for Answer {
    ghost from_gives = { λ ran answer. answer ≡ answer_of (run_answer ran) };

    fn from(ran: Result<Outcome, Refused<u32>>) -> Answer {
        match ran {
            Ok(Outcome::Ended(report)) => done(report.steps),
            Ok(Outcome::Halted(report, next)) => Answer {
                status: HALTED,
                first: report.steps,
                second: next,
            },
            Err(due) => refused(due.refusal.number(), due.place),
        }
    }
}

// A length or a place as a word: what no word can hold is given as the greatest one.
fn word(n: usize) -> u32
    ensures { result ≡ in_word n }
{
    n.min(u32::MAX as usize) as u32
}

// What `print` or `read` answered.
impl From<Result<usize, Refused<usize>>> for Answer {
    ghost from_gives = { λ filled answer. answer ≡ filled_words (answered filled) };

    fn from(filled: Result<usize, Refused<usize>>) -> Answer {
        match filled {
            Ok(length) => done(word(length)),
            Err(Refused { refusal, place }) => refused(refusal.number(), word(place)),
        }
    }
}

// Where a record lies.
impl From<Bounds> for Part {
    ghost from_gives = { λ bounds part. part ≡ part_of bounds };

    fn from(bounds: Bounds) -> Part {
        Part {
            start: bounds.start,
            length: bounds.length,
        }
    }
}
