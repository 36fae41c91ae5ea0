// The trees of the keys in a list, and their tags.
ghost use Rattle.std.specs.Prelude.{◌≡◌};
ghost use Rattle.wire.specs.TreeTags.{tree_tag};
ghost use Rattle.wire.specs.Tags.{TreeNamed};

// The trees. Extents stand in change lists alone.
#[derive(Clone, Copy, PartialEq, Eq, Debug, Drop)]
pub enum Tree {
    // Extents.
    Extents = 0,
    // Alloc keys.
    Alloc = 4,
    // LRU keys.
    Lru = 10,
    // Freespace runs.
    Freespace = 11,
    // Need-discard keys.
    NeedDiscard = 12,
    // Backpointers.
    Backpointers = 13,
    // Generation records.
    BucketGens = 14,
}

// A tag that no tree's keys have.
#[derive(Clone, Copy, PartialEq, Eq, Debug, Drop)]
pub struct UnknownTree(pub u8);

impl TryFrom<u8> for Tree {
    type Error = UnknownTree;

    ghost try_from_gives = { TreeNamed };

    // The tree whose keys have a tag, if one has. In numbers: no pattern may be a cast.
    fn try_from(tag: u8) -> Result<Tree, UnknownTree> {
        match tag {
            0 => Ok(Tree::Extents),
            4 => Ok(Tree::Alloc),
            10 => Ok(Tree::Lru),
            11 => Ok(Tree::Freespace),
            12 => Ok(Tree::NeedDiscard),
            13 => Ok(Tree::Backpointers),
            14 => Ok(Tree::BucketGens),
            _ => Err(UnknownTree(tag)),
        }
    }
}

impl Tree {
    // The tag of its keys, which names its root too. A method and not `From`: its name says which number, where `u8::from` does not.
    pub fn tag(self) -> u8
        ensures { result ≡ tree_tag self }
    {
        self as u8
    }
}
