// The lines of a file.
ghost use Rattle.std.specs.Prelude.{◌≡◌, ◌≤◌, length};
ghost use Rattle.std.proofs.lemmas.List.Edits.{sets};
ghost use Rattle.format.specs.Records.{longest};
ghost use Rattle.text.specs.Output.{answered, written, delivered};
ghost use Rattle.listing.specs.Listing.{listing_of};

use format::refusals::{Refusal, Refused};
use lines::put_ended_line;

// Puts the lines of a file's records, and answers how many bytes they are.
fn put_listing(file: &[u8], output: &mut [u8]) -> usize
    requires { length file.now ≤ longest }
    ensures put { output.new ≡ sets output.old 0 (listing_of file.now) }
    ensures length { result ≡ length (listing_of file.now) }
{
    let mut at: usize = 0;
    let mut to: usize = 0;
    loop {
        let size = records::size_at(file, at);
        if size == 0 {
            return to;
        }
        to += put_ended_line(file, at as u32, output, to as u32);
        at += size;
    }
}

// Delivers the listing of a file. It is put twice: into no byte, to learn its length, and then into the output.
pub fn deliver_lines(file: &[u8], output: &mut [u8]) -> Result<usize, Refused<usize>>
    requires { length file.now ≤ longest }
    ensures { written (answered result) output.new ≡ delivered (listing_of file.now) output.old }
{
    let mut none = [0u8; 0];
    let length = put_listing(file, &mut none);
    if output.len() < length {
        return Err(Refused {
            refusal: Refusal::OutputShort,
            place: 0,
        });
    }
    Ok(put_listing(file, output))
}
