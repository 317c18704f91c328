// A listing that is longer than that of any program file. It is refused as the documents say, with 30 at its first malformed line, or,
// where there is none, with 1 at 0, the file that it gives being too long. So it is read on in pieces. By `reached_start` (listing),
// `turn_next` and `turn_told` (proofs/Turns.antt) the turns' refusal is that of the whole listing, if each piece fills the buffer or the
// listing ends with it; that the loop reads so no contract can say, since none says what a file holds.
ghost use Rattle.std.specs.Prelude.{◌≡◌, ◌≤◌, ◌+◌, ◌-◌, IfOk, MatchResult, length, take, drop};
ghost use Rattle.listing.specs.Pieces.{piece_of};
ghost use Rattle.tgsi_read.specs.Inner.Turns.{turn_of};

use format::refusals::{Refusal, Refused};
use listing::Piece;
use std::io;
use text::output::move_to_front;

// More pieces than a file of 2^63 bytes has, each with at most 511 bytes of a cut line. A proved loop ends, and nothing says that a file
// does.
const TURNS: u64 = 36000000000000;

// The first bytes of a buffer, so many, are a piece that starts at a place of the listing. Reads the lines that end in it, moves what
// follows them to the front, and answers how many bytes are passed.
fn take_turn(text: &mut [u8], count: usize, place: u64) -> Result<usize, Refused<u64>>
    requires { (count ≤ length text.old) × (place + count ≤ 18446744073709551615) }
    ensures due { result ≡ turn_of place (piece_of (take count text.old)) }
    ensures kept { MatchResult result (λ n. take (count - n) text.new ≡ drop n (take count text.old)) (λ _. text.new ≡ text.old) }
    ensures within { IfOk result (λ n. n ≤ count) }
{
    match listing::read_piece(&text[..count]) {
        Piece::Malformed(at) => Err(Refused {
            refusal: Refusal::MalformedLine,
            place: place + at as u64,
        }),
        Piece::Nothing => Err(Refused {
            refusal: Refusal::TooLong,
            place: 0,
        }),
        Piece::Unended => Err(Refused {
            refusal: Refusal::MalformedLine,
            place,
        }),
        Piece::Lines(n) => {
            move_to_front(&mut text[..count], n);
            Ok(n)
        }
    }
}

// Refuses the listing whose first bytes fill a buffer.
pub fn refuse<F: io::Read>(rt: &HostRuntime, file: &mut F, path: &[u8], text: &mut [u8])
    requires { length text.old ≡ 262145 }
{
    let mut place: u64 = 0;
    let mut count = text.len();
    for _ in 0..TURNS {
        let passed = match take_turn(text, count, place) {
            Ok(passed) => passed,
            Err(due) => return report::refusal_lines(rt, due.refusal, due.place),
        };
        place += passed as u64;
        count -= passed;
        let Some(more) = files::fill(rt, file, path, &mut text[count..]) else {
            return;
        };
        count += more;
    }
    files::fault_line(rt, path, b": does not end");
}
