// What the rows count: pieces, file sectors and stored sectors, of all pieces and of each compression kind.
ghost use Rattle.std.specs.Prelude.{◌≡◌, ◌≤◌, [], ◌∷◌, length};
ghost use Rattle.reader.specs.Pieces.{piece_in};
ghost use Rattle.reader.specs.PieceLists.{pieces_of};
ghost use Rattle.accounting.specs.Tally.{tally_of, tallies_of, sum, both, Small, Smalls, Tallied};
ghost use Rattle.accounting.specs.Kinds.{CountedAs};

use format::compression::Compression;
use reader::piece::Piece;
use reader::pieces::Pieces;

// How many pieces, how many file sectors and how many stored sectors.
// Their bounds are no ghost field: the definitions tally any pieces, `add` asks for room for one more, and the rows ask for 1,024 pieces at most.
#[derive(Clone, Copy, Default, Drop)]
pub struct Tally {
    pub count: u64,
    pub file: u64,
    pub stored: u64,
}

// The tally of all pieces, and those of the kinds 2, 3, 4 and 5.
#[derive(Clone, Copy, Default, Drop)]
pub struct Tallies {
    pub all: Tally,
    pub kinds: [Tally; 4],
}

// No piece yet.
#[tactic(auto, unfolding(calls::specs::Lists::total))]
pub fn none() -> Tally
    ensures { result ≡ tally_of [] }
{
    Tally::default()
}

impl Tally {
    // One piece more. The limit on requests shows the bound.
    pub fn add(&mut self, p: Piece)
        requires { Small 1023 self.old }
        ensures { self.new ≡ sum self.old (tally_of (piece_in p ∷ [])) }
    {
        self.count += 1;
        self.file += p.file as u64;
        self.stored += p.stored as u64;
    }
}

// Which of the tallies of the kinds a piece with a kind counts in; one of kind 0, or of a kind that is none, counts in none.
// Its number less 2, as `kind_rows 2` has it; by name, since a byte may name no kind.
fn kind_index(kind: u8) -> Option<usize>
    ensures { CountedAs kind result }
{
    match Compression::try_from(kind).ok()? {
        Compression::Off => None,
        Compression::Gzip => Some(0),
        Compression::Lz4 => Some(1),
        Compression::Zstd => Some(2),
        Compression::Incompressible => Some(3),
    }
}

impl Tallies {
    // One piece more. The limit on requests shows the bound.
    pub fn add(&mut self, p: Piece)
        requires { Smalls 1023 self.old }
        ensures { self.new ≡ both self.old (tallies_of (piece_in p ∷ [])) }
    {
        self.all.add(p);
        if let Some(i) = kind_index(p.kind) {
            self.kinds[i].add(p);
        }
    }
}

// The tallies of the pieces, in one pass. Refusal 3 shows that the pieces are few.
// No type bounds them: `Pieces` is a `Listed`, which reads the fields of any kind.
pub fn tally_pieces(pieces: &Pieces) -> Tallies
    requires { length (pieces_of pieces.now) ≤ 1024 }
    ensures { Tallied (pieces_of pieces.now) result }
{
    let mut tallies = Tallies {
        all: none(),
        kinds: [none(); 4],
    };
    for p in pieces.iter() {
        tallies.add(p);
    }
    tallies
}
