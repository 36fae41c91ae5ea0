// The values at some places of a list, whose bodies have a fixed length: the reserved buckets, the pieces, and the released ones.
ghost use Rattle.std.specs.Prelude.{◌≡◌, ⊤, ℕ, List, Bool, ◌+◌, ◌<◌, ◌≤◌, length, drop, get_or};
ghost use Rattle.std.specs.List.{prefix_len};
ghost use Rattle.calls.specs.Lists.{all_of};
ghost use Rattle.reader.specs.Listed.{values_at, WholeBodies};

use crate::skip;
use std::alloc::AllocError;
use std::marker::PhantomData;

// What a field's body of a fixed length holds.
pub trait FixedBody: Drop {
    // What a clause sees of one.
    ghost Seen: { Type 0 };

    ghost seen: { Self → Seen };

    // How many bytes it has, and what is read of bytes that begin with it.
    ghost width: { ℕ };

    ghost read: { List ℕ → Seen };

    // The one at a place. The length of its field shows the bound.
    fn read_at(list: &[u8], at: usize) -> Self
        requires { at + width ≤ length list.now }
        ensures { seen result ≡ read (drop at list.now) };
}

// A list, and the places of some bodies. Whoever makes one shows that each is within the list.
#[derive(Drop)]
pub struct Listed<'a, T: FixedBody> {
    pub list: &'a [u8],
    pub places: &'a [u32],
    pub of: PhantomData<T>,
    pub ghost whole: { WholeBodies T.width list.now places.now },
}

// By hand: tried `derive_where`, which refuses a generic struct with a ghost field.
impl<'a, T: FixedBody> Copy for Listed<'a, T> {}

impl<'a, T: FixedBody> Clone for Listed<'a, T> {
    ghost is_clone = { λ x y. x ≡ y };

    ghost is_infallible = { λ _. ⊤ };

    fn clone(&self) -> Result<Self, AllocError> {
        Ok(*self)
    }
}

// Those that are left of some.
#[derive(Drop)]
pub struct ListedLeft<'a, T: FixedBody> {
    pub listed: Listed<'a, T>,
}

impl<'a, T: FixedBody> Listed<'a, T> {
    // Those at some places. Who asks for them shows that each is within the list.
    pub fn new(list: &'a [u8], places: &'a [u32]) -> Listed<'a, T>
        requires { WholeBodies T.width list.now places.now }
        ensures { (result.list ≡ list.entry) × (result.places ≡ places.entry) }
    {
        Listed {
            list,
            places,
            of: PhantomData,
        }
    }

    // How many they are.
    pub fn len(&self) -> usize
        ensures { result ≡ length (values_at T.read self.now.list.now self.now.places.now) }
    {
        self.places.len()
    }

    // The one at an index. Who asks for it shows the bound.
    pub fn get(&self, i: usize) -> T
        requires { i < length (values_at T.read self.now.list.now self.now.places.now) }
        ensures { (none : T.Seen) → T.seen result ≡ get_or (values_at T.read self.now.list.now self.now.places.now) i none }
    {
        T::read_at(self.list, self.places[i] as usize)
    }

    // All of them, from the first on.
    pub fn iter(&self) -> ListedLeft<'a, T>
        ensures { result.listed ≡ self.now }
    {
        ListedLeft { listed: *self }
    }

    // Whether a test holds of each.
    pub fn all<F: Fn(T) -> bool>(&self, test: F) -> bool
        requires { F.IsAlwaysCallable test }
        ensures { (t : T.Seen → Bool) → ((x : _) (r : Bool) → F.post test x r → r ≡ t (T.seen x)) → result ≡ all_of t (values_at T.read self.now.list.now self.now.places.now) }
    {
        self.iter().all(|x| test(x))
    }

    // The first index, from one on, at which a test fails; how many there are where it fails at none. Where the walk before ended shows the bound.
    pub fn skip_while<F: Fn(T) -> bool>(&self, from: usize, test: F) -> usize
        requires from_within { from ≤ length self.now.places.now }
        requires callable { (x : T) → F.pre test x }
        ensures { (t : T.Seen → Bool) → ((x : T) (r : Bool) → F.post test x r → r ≡ t (T.seen x)) → result ≡ from + prefix_len t (drop from (values_at T.read self.now.list.now self.now.places.now)) }
    {
        let list = self.list;
        skip::skip_while(
            self.places,
            from,
            |at: u32|
                requires { (at + T.width ≤ length list.now) × ((x : T) → F.pre test x) }
            { test(T::read_at(list, at as usize)) },
        )
    }
}

impl<'a, T: FixedBody> Iterator for ListedLeft<'a, T> {
    ghost use Rattle.std.specs.Iterator.{YieldsFirstBy, item_count};

    type Item = T;

    ghost next_gives = { YieldsFirstBy T.seen (λ l. values_at T.read l.listed.list.now l.listed.places.now) };

    ghost remaining = { item_count (λ l. values_at T.read l.listed.list.now l.listed.places.now) };

    // The next one, if one is left.
    fn next(&mut self) -> Option<T> {
        let list = self.listed.list;
        let (first, others) = self.listed.places.split_first()?;
        self.listed = Listed::new(list, others);
        Some(T::read_at(list, *first as usize))
    }
}
