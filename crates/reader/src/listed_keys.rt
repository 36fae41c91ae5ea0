// The keys at some places of a list.
ghost use Rattle.std.specs.Prelude.{◌≡◌, Bool, ◌+◌, ◌≤◌, ◌<◌, length, take, drop};
ghost use Rattle.std.specs.List.{prefix_len};
ghost use Rattle.reader.specs.KeyHere.{Whole, WholeKeys};

use crate::key::ListedKey;
use crate::skip;

// A list, and the places of some of its keys. Whoever makes one shows that a whole key stands at each. No `Listed`: tried, and a trait whose values borrow from the list has a lifetime, and a
// struct with such a bound gets no generated proof.
#[derive(Clone, Copy, Drop)]
pub struct Keys<'a> {
    pub list: &'a [u8],
    pub places: &'a [u32],
    pub ghost whole: { WholeKeys list.now places.now },
}

// The keys that are left of some.
#[derive(Drop)]
pub struct KeysLeft<'a> {
    pub keys: Keys<'a>,
}

impl<'a> Keys<'a> {
    ghost use Rattle.wire.specs.Keys.{Key};
    ghost use Rattle.reader.specs.declared.key.ListedKey.{ListedKey};
    ghost use Rattle.reader.specs.ListedKeys.{key_listed, keys_listed, KeyOf, KeyGot, KeyLast};

    // How many there are.
    pub fn len(&self) -> usize
        ensures { result ≡ length self.now.places.now }
    {
        self.places.len()
    }

    // The key at a place. Who asks for it shows that a whole one stands there.
    fn key_at(&self, at: u32) -> ListedKey<'a>
        requires { Whole self.now.list.now at }
        ensures { (result.list.now ≡ self.now.list.now) × (result.at ≡ at) }
    {
        ListedKey {
            list: self.list,
            at: at as usize,
        }
    }

    // The key with an index. Who asks for it shows the bound.
    pub fn at(&self, i: usize) -> ListedKey<'a>
        requires { i < length self.now.places.now }
        ensures { KeyOf self.now i result }
    {
        self.key_at(self.places[i])
    }

    // The key with an index, if there are so many.
    pub fn get(&self, i: usize) -> Option<ListedKey<'a>>
        ensures { KeyGot self.now i result }
    {
        let at = self.places.get(i)?;
        Some(self.key_at(*at))
    }

    // The last of them, if there is one.
    pub fn last(&self) -> Option<ListedKey<'a>>
        ensures { KeyLast self.now result }
    {
        let at = self.places.last()?;
        Some(self.key_at(*at))
    }

    // The first of them, so many. Who asks for them shows the bound.
    pub fn up_to(&self, n: usize) -> Keys<'a>
        requires { n ≤ length self.now.places.now }
        ensures { (result.list.now ≡ self.now.list.now) × (result.places.now ≡ take n self.now.places.now) }
    {
        Keys {
            list: self.list,
            places: &self.places[..n],
        }
    }

    // The keys, one after the other.
    pub fn iter(&self) -> KeysLeft<'a>
        ensures { result.keys ≡ self.now }
    {
        KeysLeft { keys: *self }
    }

    // The first index, from one on, at which a test of the key fails; how many keys there are where it fails at none. Where the walk before ended shows the bound.
    pub fn skip_while<F: Fn(ListedKey) -> bool>(&self, from: usize, test: F) -> usize
        requires from_within { from ≤ length self.now.places.now }
        requires callable { (k : ListedKey) → k.at ≤ 0xffff_ffff → F.pre test k }
        ensures { (t : Key → Bool) → ((k : ListedKey) (r : Bool) → k.at ≤ 0xffff_ffff → F.post test k r → r ≡ t (key_listed k)) → result ≡ from + prefix_len t (drop from (keys_listed self.now)) }
    {
        let list = self.list;
        skip::skip_while(
            self.places,
            from,
            |at: u32|
                requires { Whole list.now at × ((k : ListedKey) → k.at ≤ 0xffff_ffff → F.pre test k) }
            {
                test(ListedKey {
                    list,
                    at: at as usize,
                })
            },
        )
    }

    // Those from an index on. Who asks for them shows the bound.
    pub fn from(&self, n: usize) -> Keys<'a>
        requires { n ≤ length self.now.places.now }
        ensures { (result.list.now ≡ self.now.list.now) × (result.places.now ≡ drop n self.now.places.now) }
    {
        Keys {
            list: self.list,
            places: &self.places[n..],
        }
    }
}

impl<'a> Iterator for KeysLeft<'a> {
    ghost use Rattle.std.specs.Iterator.{item_count};
    ghost use Rattle.reader.specs.ListedKeys.{keys_left, KeyStepped};

    type Item = ListedKey<'a>;

    ghost next_gives = { λ before key after. KeyStepped before key after };

    ghost remaining = { item_count keys_left };

    // The next key, if one is left.
    fn next(&mut self) -> Option<ListedKey<'a>> {
        let list = self.keys.list;
        let (first, others) = self.keys.places.split_first()?;
        let key = self.keys.key_at(*first);
        self.keys = Keys {
            list,
            places: others,
        };
        Some(key)
    }
}

impl<'a> DoubleEndedIterator for KeysLeft<'a> {
    ghost use Rattle.reader.specs.ListedKeys.{KeySteppedBack};

    ghost next_back_gives = { λ before key after. KeySteppedBack before key after };

    // The last key, if one is left.
    fn next_back(&mut self) -> Option<ListedKey<'a>> {
        let list = self.keys.list;
        let (last, others) = self.keys.places.split_last()?;
        let key = self.keys.key_at(*last);
        self.keys = Keys {
            list,
            places: others,
        };
        Some(key)
    }
}
