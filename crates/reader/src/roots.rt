// The roots that field 1 names by its bits, and fields 70 by an id.
ghost use Rattle.std.specs.Prelude.{◌≡◌, ◌^◌};
ghost use Rattle.calls.specs.Place.{root_missing};
ghost use Rattle.calls.specs.Apply.{root_bit};
ghost use Rattle.reader.specs.Roots.{root_id, RootNamed, with_root};

use wire::trees::Tree;

// The trees whose roots may be missing. Each is the byte that has its bit alone.
#[derive(Clone, Copy, PartialEq, Eq, Debug, Drop)]
pub enum Root {
    // The LRU's: bit 0.
    Lru = 1,
    // That of the need-discard keys: bit 1.
    NeedDiscard = 2,
    // That of the generation records: bit 2.
    BucketGens = 4,
}

// An id that no root has.
#[derive(Clone, Copy, PartialEq, Eq, Debug, Drop)]
pub struct UnknownRoot(pub u8);

impl TryFrom<u8> for Root {
    type Error = UnknownRoot;

    ghost try_from_gives = { RootNamed };

    // The root with an id, if one has it.
    #[tactic(auto, unfolding(crate::specs::Roots::is_root))]
    fn try_from(id: u8) -> Result<Root, UnknownRoot> {
        match Tree::try_from(id) {
            Ok(Tree::Lru) => Ok(Root::Lru),
            Ok(Tree::NeedDiscard) => Ok(Root::NeedDiscard),
            Ok(Tree::BucketGens) => Ok(Root::BucketGens),
            _ => Err(UnknownRoot(id)),
        }
    }
}

impl Root {
    // Its id: the tag of its tree. A method and not `From`: its name says which number, where `u8::from` does not.
    pub fn id(self) -> u8
        ensures { result ≡ root_id self }
    {
        match self {
            Root::Lru => Tree::Lru.tag(),
            Root::NeedDiscard => Tree::NeedDiscard.tag(),
            Root::BucketGens => Tree::BucketGens.tag(),
        }
    }

    // Its bit.
    fn bit(self) -> u8
        ensures { result ≡ 2 ^ root_bit (root_id self) }
    {
        self as u8
    }
}

// Whether a root is missing. A byte and no type: `Head` holds the byte of the format, and a narrower type would ask more of callers.
pub fn is_missing(roots: u8, root: Root) -> bool
    ensures { result ≡ root_missing roots (root_bit (root_id root)) }
{
    roots & root.bit() == 0
}

// The roots with one more, unless they have it. A byte and no type, as `Head` holds the byte of the format.
pub fn with_root(roots: u8, root: Root) -> u8
    ensures { result ≡ with_root roots (root_id root) }
{
    roots | root.bit()
}
