// A text that is read in pieces: what the bytes that are at hand tell of it.
ghost use Rattle.std.specs.Prelude.{◌≡◌};
ghost use Rattle.listing.specs.Pieces.{piece_of};

use super::reading::spell;
use text::parts::{LINE_FEED, ended_length};

// What a piece tells.
#[derive(Clone, Copy)]
pub enum Piece {
    // The first malformed line that ends in it starts at a place.
    Malformed(usize),
    // There are no bytes.
    Nothing,
    // There are bytes, and no line ends in them.
    Unended,
    // The lines that end in it are well formed, and end at a place.
    Lines(usize),
}

// Reads the lines that end in a piece.
#[tactic(auto, using(crate::proofs::Fronts::no_bytes, crate::proofs::Fronts::lines_counted), unfolding(crate::specs::Pieces::piece_of))]
pub fn read_piece(piece: &[u8]) -> Piece
    ensures { result ≡ piece_of piece.now }
{
    if piece.is_empty() {
        return Piece::Nothing;
    }
    let end = ended_length(piece, LINE_FEED);
    if end == 0 {
        return Piece::Unended;
    }
    let mut file = [0u8; 65536];
    match spell(&piece[..end], &mut file) {
        Ok(_) => Piece::Lines(end),
        Err(malformed) => Piece::Malformed(malformed.place),
    }
}
