// A key of a list, and each part of it.
#![tactic(auto, using(crate::proofs::KeyHereLaws::key_parts))]

ghost use Rattle.std.specs.Prelude.{◌≡◌};
ghost use Rattle.wire.specs.Held.{key_in};
ghost use Rattle.wire.specs.Positions.{bucket_in};
ghost use Rattle.reader.specs.KeyHere.{body_len, Whole};

use wire::bpos::Bpos;
use wire::keys::Bkey;
use wire::kinds::Bucket;
use wire::{fields, keys, positions};

// A key of a list: its body starts at a place. Whoever makes one shows that a whole key stands there.
#[derive(Clone, Copy, Drop)]
pub struct ListedKey<'a> {
    pub list: &'a [u8],
    pub at: usize,
    pub ghost whole: { Whole list.now at },
}

impl<'a> ListedKey<'a> {
    ghost use Rattle.reader.specs.ListedKeys.{key_listed};

    // How many bytes its body has.
    fn body_len(&self) -> usize
        ensures { result ≡ body_len self.now.list.now self.now.at }
    {
        fields::len_at(self.list, self.at)
    }

    // Its type.
    pub fn key_type(&self) -> u8
        ensures { result ≡ (key_listed self.now).type }
    {
        keys::type_at(self.list, self.at)
    }

    // Its size.
    pub fn size(&self) -> u32
        ensures { result ≡ (key_listed self.now).size }
    {
        keys::size_at(self.list, self.at)
    }

    // Its position.
    pub fn pos(&self) -> Bpos
        ensures { result ≡ (key_listed self.now).pos }
    {
        keys::pos_at(self.list, self.at)
    }

    // The bucket that its position names.
    pub fn bucket(&self) -> Bucket
        ensures { result ≡ bucket_in (key_listed self.now).pos }
    {
        positions::bucket_in(self.pos())
    }

    // Its value.
    pub fn value(&self) -> &'a [u8]
        ensures { result.now ≡ (key_listed self.now).value }
    {
        &self.list[self.at + 37..self.at + self.body_len()]
    }

    // The whole key.
    #[tactic(auto, unfolding(crate::specs::KeyHere::key_here))]
    pub fn key(&self) -> Bkey
        ensures { key_in result ≡ key_listed self.now }
    {
        keys::read_key(&self.list[self.at..self.at + self.body_len()])
    }
}
