// The tags of fields, by name.
ghost use Rattle.std.specs.Prelude.{◌≡◌};
ghost use Rattle.wire.specs.Tags.{tag_number, TagNamed};

use crate::trees::{Tree, UnknownTree};

// What a field is, by its tag.
#[derive(Clone, Copy, PartialEq, Eq, Debug, Drop)]
pub enum Tag {
    // The head of a list: 1.
    Head,
    // A key of a tree: the tree's own tag.
    Key(Tree),
    // A bucket that is reserved: 64.
    Reserved,
    // A piece to place: 65.
    Piece,
    // A piece to release: 66.
    Freed,
    // A root that is set: 70.
    Root,
    // A bucket that is taken: 71.
    Taken,
    // Where a piece is placed: 72.
    Spot,
    // A row of accounting: 73.
    Row,
    // How many file sectors are placed: 74.
    Sectors,
    // A bucket that is unreserved: 75.
    Unreserved,
    // The end of a batch: 76.
    End,
}

// A number that no tag has.
#[derive(Clone, Copy, PartialEq, Eq, Debug, Drop)]
pub struct UnknownTag(pub u8);

// The same byte, as a number that no tag has.
impl From<UnknownTree> for UnknownTag {
    ghost from_gives = { λ tree tag. tag.0 ≡ tree.0 };

    fn from(tree: UnknownTree) -> UnknownTag {
        UnknownTag(tree.0)
    }
}

impl TryFrom<u8> for Tag {
    type Error = UnknownTag;

    ghost try_from_gives = { TagNamed };

    // The tag with a number, if one has it. Inlined, as a pass over a list asks it of each field.
    #[inline(always)]
    fn try_from(number: u8) -> Result<Tag, UnknownTag> {
        match number {
            1 => Ok(Tag::Head),
            64 => Ok(Tag::Reserved),
            65 => Ok(Tag::Piece),
            66 => Ok(Tag::Freed),
            70 => Ok(Tag::Root),
            71 => Ok(Tag::Taken),
            72 => Ok(Tag::Spot),
            73 => Ok(Tag::Row),
            74 => Ok(Tag::Sectors),
            75 => Ok(Tag::Unreserved),
            76 => Ok(Tag::End),
            _ => Ok(Tag::Key(Tree::try_from(number)?)),
        }
    }
}

impl Tag {
    // Its number. A method and not `From`: its name says which number, where `u8::from` does not. Each stands here and in `try_from`: a variant that holds a tree leaves the others no discriminants, and a table of them would have to be searched at each field.
    pub fn number(self) -> u8
        ensures { result ≡ tag_number self }
    {
        match self {
            Tag::Head => 1,
            Tag::Key(tree) => tree.tag(),
            Tag::Reserved => 64,
            Tag::Piece => 65,
            Tag::Freed => 66,
            Tag::Root => 70,
            Tag::Taken => 71,
            Tag::Spot => 72,
            Tag::Row => 73,
            Tag::Sectors => 74,
            Tag::Unreserved => 75,
            Tag::End => 76,
        }
    }
}
