// Field 65: a piece to be placed.
ghost use Rattle.std.specs.Prelude.{◌≡◌, ◌+◌, ◌≤◌, length, take, drop};
ghost use Rattle.calls.specs.CallList.{piece_of};
ghost use Rattle.reader.specs.Pieces.{piece_in};

use wire::le;

// The parts of a piece. `kind` is a byte and no `Compression`: a piece is read before refusal 6 tests it.
#[derive(Clone, Copy, Default, Drop)]
pub struct Piece {
    pub file: u16,
    pub stored: u16,
    pub kind: u8,
    pub checksum: u64,
}

// The piece whose body starts at a place of a list. The length of a field 65 shows the bound.
#[tactic(auto, using(crate::proofs::PieceLaws::piece_places))]
pub fn read_piece(s: &[u8], at: usize) -> Piece
    requires { at + 13 ≤ length s.now }
    ensures { piece_in result ≡ piece_of (take 13 (drop at s.now)) }
{
    Piece {
        file: le::le16(s, at),
        stored: le::le16(s, at + 2),
        kind: le::le8(s, at + 4),
        checksum: le::le64(s, at + 5),
    }
}
