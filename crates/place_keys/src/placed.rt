// A piece at its place.
use reader::piece::Piece;
use wire::kinds::{Bucket, DeviceSector, FileSector};

// A piece, where it starts on the device, its bucket and generation, and where its extent ends in the file.
#[derive(Clone, Copy, Drop)]
pub struct Placed {
    pub piece: Piece,
    pub first: DeviceSector,
    pub bucket: Bucket,
    pub generation: u8,
    pub end: FileSector,
}
