// Positions of keys, and their order: by inode, then by offset, then by snapshot.
ghost use Rattle.std.specs.Prelude.{◌≡◌, ◌+◌, ◌≤◌, length, drop};
ghost use Rattle.wire.specs.Keys.{pos_of};
ghost use Rattle.wire.specs.Order.{pos_less, pos_same};

use crate::le;

#[derive(Clone, Copy, PartialEq, Eq, PartialOrd, Ord, Drop)]
pub struct Bpos {
    pub inode: u64,
    pub offset: u64,
    pub snapshot: u32,
}

// The position at a place of a list. The length of a key's field shows the bound.
pub fn read_pos(s: &[u8], at: usize) -> Bpos
    requires { at + 20 ≤ length s.now }
    ensures { result ≡ pos_of (drop at s.now) }
{
    Bpos {
        inode: le::le64(s, at),
        offset: le::le64(s, at + 8),
        snapshot: le::le32(s, at + 16),
    }
}

// Whether a stands before b. A function and no `<` at each place: each function with `<` on positions has to cite `parts_compared`, the law of the derived order; here that is once.
#[tactic(auto, using(crate::proofs::OrderLaws::parts_compared))]
pub fn pos_less(a: Bpos, b: Bpos) -> bool
    ensures { result ≡ pos_less a b }
{
    a < b
}

// Whether two positions are the same. A function and no `==` at each place: each function with `==` on positions has to cite `parts_same`; here that is once.
#[tactic(auto, using(crate::proofs::OrderLaws::parts_same))]
pub fn pos_same(a: Bpos, b: Bpos) -> bool
    ensures { result ≡ pos_same a b }
{
    a == b
}
