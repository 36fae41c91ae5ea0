// The pieces of a call list.
ghost use Rattle.std.specs.Prelude.{◌≡◌, ◌≤◌, length};

use crate::listed::{FixedBody, Listed, ListedLeft};
use crate::piece;
use crate::piece::Piece;
use crate::read_list::ReadList;

// A call list, and the places of its pieces.
pub type Pieces<'a> = Listed<'a, Piece>;

// The pieces that are left of some.
pub type PiecesLeft<'a> = ListedLeft<'a, Piece>;

// A piece has 13 bytes.
impl FixedBody for Piece {
    ghost use Rattle.std.specs.Prelude.{take};
    ghost use Rattle.calls.specs.CallList as calls;
    ghost use Rattle.reader.specs.Pieces.{piece_in};

    ghost Seen = { calls.Piece };

    ghost seen = { λ p. piece_in p };

    ghost width = { 13 };

    ghost read = { λ s. calls.piece_of (take 13 s) };

    fn read_at(list: &[u8], at: usize) -> Piece {
        piece::read_piece(list, at)
    }
}

impl<'a> Listed<'a, Piece> {
    ghost use Rattle.reader.specs.PieceLists.{pieces_of};
    ghost use Rattle.reader.specs.Readings.{ReadAs};
    ghost use Rattle.calls.specs.Answers.{read_call};

    // Those that a placement asks for. Refusal 3 has shown that they are few.
    // No type holds `ReadAs`: a `ReadList` is one for all calls and volumes, and `ReadAs` names what it was read as.
    pub fn asked(read: &ReadList<'a>) -> Pieces<'a>
        requires { ReadAs (Some 1) read.now }
        ensures same { result.list.now ≡ read.now.list.now }
        ensures are { pieces_of result ≡ (read_call read.now.list.now).pieces }
        ensures few { length (pieces_of result) ≤ 1024 }
    {
        Listed::new(read.list, read.requests)
    }
}
