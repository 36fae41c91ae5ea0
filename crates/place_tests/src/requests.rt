// What is asked of a placement: the tests of refusals 6 to 9.
ghost use Rattle.std.specs.Prelude.{◌≡◌, not, ◌&&◌, ◌||◌, eqb};
ghost use Rattle.std.specs.Int.NonZero.{non_zero_u16_get};
ghost use Rattle.calls.specs.Lists.{all_of};
ghost use Rattle.calls.specs.Pieces.{kind_listed, block_of, divides, piece_sized};
ghost use Rattle.reader.specs.Pieces.{piece_in};
ghost use Rattle.reader.specs.PieceLists.{pieces_of};
ghost use Rattle.place_tests.specs.Requests.{kind_fits};

use format::checksums::ChecksumOption;
use format::compression::Compression;
use reader::piece::Piece;
use reader::pieces::Pieces;
use std::num::NonZero;

// Whether a piece's kind is one of those that there are.
#[tactic(auto, unfolding(calls::specs::Pieces::kind_listed))]
fn kind_listed(p: Piece) -> bool
    ensures { result ≡ kind_listed (piece_in p) }
{
    Compression::try_from(p.kind).is_ok()
}

// Block sectors, of which 0 counts as 1.
#[tactic(auto, unfolding(calls::specs::Pieces::block_of))]
pub fn block_of(block: u16) -> NonZero<u16>
    ensures { non_zero_u16_get result ≡ block_of block }
{
    NonZero::<u16>::new(block).unwrap_or(NonZero::<u16>::MIN)
}

// Whether a block divides a number of sectors.
#[tactic(auto, unfolding(calls::specs::Pieces::divides))]
fn divides(block: NonZero<u16>, n: u16) -> bool
    ensures { result ≡ divides (non_zero_u16_get block) n }
{
    n % block == 0
}

// Refusal 8: whether a block divides both the bucket and 128.
// A bucket and a block apart: the block is read off the head by `block_of`, and `divides` takes it alone.
pub fn block_fits(block: NonZero<u16>, bucket: u16) -> bool
    ensures { result ≡ (divides (non_zero_u16_get block) bucket && divides (non_zero_u16_get block) 128) }
{
    divides(block, bucket) && divides(block, 128)
}

// Whether a piece stored as it is has as many sectors stored as in the file, and one that is compressed has not.
// By the kind's byte: of a byte that names no kind it is asked too.
#[tactic(auto, unfolding(crate::specs::Requests::kind_fits))]
fn kind_fits(p: Piece) -> bool
    ensures { result ≡ kind_fits (piece_in p) }
{
    let as_it_is = p.kind == Compression::Off as u8 || p.kind == Compression::Incompressible as u8;
    as_it_is == (p.stored == p.file)
}

// Whether a piece's sectors are within their bounds, are whole blocks and agree with its kind.
// A bucket and a block apart: the block is read off the head by `block_of`, and `divides` takes it alone.
#[tactic(auto, unfolding(calls::specs::Pieces::piece_sized, crate::specs::Requests::kind_fits))]
fn piece_sized(p: Piece, bucket: u16, block: NonZero<u16>) -> bool
    ensures { result ≡ piece_sized bucket (non_zero_u16_get block) (piece_in p) }
{
    (1..=bucket.min(128)).contains(&p.file)
        && (1..=p.file).contains(&p.stored)
        && divides(block, p.file)
        && divides(block, p.stored)
        && kind_fits(p)
}

// Refusal 6: whether each piece's kind is listed.
pub fn kinds_listed(pieces: &Pieces) -> bool
    ensures { result ≡ all_of kind_listed (pieces_of pieces.now) }
{
    pieces.all(|p| kind_listed(p))
}

// Refusal 7: whether a checksum option, by its byte, takes the pieces' kinds: where there is no checksum, no piece may be compressed.
// By its byte, and not by `ChecksumOption`: the narrower type would ask more of callers.
pub fn option_fits(pieces: &Pieces, option: u8) -> bool
    ensures { result ≡ (not (eqb option 0) || all_of (λ p. eqb p.kind 0) (pieces_of pieces.now)) }
{
    option != ChecksumOption::Off as u8 || pieces.all(|p| p.kind == Compression::Off as u8)
}

// Refusal 9: whether each piece's sectors are as a bucket and a block allow.
// A bucket and a block apart: the block is read off the head by `block_of`, and `divides` takes it alone.
pub fn pieces_sized(pieces: &Pieces, bucket: u16, block: NonZero<u16>) -> bool
    ensures { result ≡ all_of (piece_sized bucket (non_zero_u16_get block)) (pieces_of pieces.now) }
{
    pieces.all(|p| piece_sized(p, bucket, block))
}
