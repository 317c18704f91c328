// Reading a listing: each line's numbers give a record, and the line must be that record's own.
ghost use Rattle.std.specs.Prelude.{◌≡◌, cond, ◌≤◌, length, Some, None, IfSome, Err};
ghost use Rattle.std.proofs.lemmas.List.Edits.{sets};
ghost use Rattle.format.specs.Records.{longest};
ghost use Rattle.format.specs.Refusals.{malformed_line};
ghost use Rattle.text.specs.Output.{answered, refusal};
ghost use Rattle.spelling.specs.Spelling.{line_record, well_formed};
ghost use Rattle.listing.specs.Reading.{bytes_of};
ghost use Rattle.listing.specs.Inner.Spelt.{counted_on, Spelt};

use format::records::LONGEST;
use format::refusals::{Refusal, Refused};
use spelling::{is_line_of, put_record};
use text::output::put_all;
use text::parts::{LINE_FEED, first_part, rest_from};

// A malformed line, whose first byte stands at a place.
#[derive(Clone, Copy)]
pub struct MalformedLine {
    pub place: usize,
}

impl From<MalformedLine> for Refused<usize> {
    ghost from_gives = { λ line refused. answered (Err refused) ≡ refusal malformed_line line.place };

    fn from(line: MalformedLine) -> Refused<usize> {
        Refused {
            refusal: Refusal::MalformedLine,
            place: line.place,
        }
    }
}

// A count with so many bytes more; past the longest file it is not counted on.
fn counted(count: usize, more: usize) -> usize
    requires { more ≤ 128 }
    ensures { result ≡ counted_on count more }
{
    if LONGEST < count { count } else { count + more }
}

// Puts the record of a line into a file at a place, and answers its size; nothing of a malformed line.
fn put_line_record(line: &[u8], file: &mut [u8], at: usize) -> Option<usize>
    ensures size { result ≡ cond (well_formed line.now) (Some (length (line_record line.now))) None }
    ensures put { file.new ≡ cond (well_formed line.now) (sets file.old at (line_record line.now)) file.old }
    ensures few { IfSome result (λ size. size ≤ 128) }
{
    let mut record = [0u8; 128];
    let size = put_record(line, &mut record);
    let bytes = &record[..size];
    if !is_line_of(bytes, line) {
        return None;
    }
    put_all(file, at, bytes);
    Some(size)
}

// Puts the file that a listing gives, as far as the array goes, and answers its length: of a file that is longer than any may be some
// length that is longer.
pub fn spell(text: &[u8], file: &mut [u8; 65536]) -> Result<usize, MalformedLine>
    requires { length file.old ≡ longest }
    ensures spelt { Spelt result file.new (bytes_of text.now) }
    ensures room { length file.new ≡ longest }
{
    let mut at: usize = 0;
    let mut count: usize = 0;
    while at < text.len() {
        let rest = rest_from(text, at);
        let line = first_part(rest, LINE_FEED);
        if line.len() == rest.len() {
            return Err(MalformedLine { place: at });
        }
        let Some(size) = put_line_record(line, file, count) else {
            return Err(MalformedLine { place: at });
        };
        count = counted(count, size);
        at += line.len() + 1;
    }
    Ok(count)
}
