// Keys with their values, held by value.
ghost use Rattle.std.specs.Prelude.{◌≡◌, ◌+◌, ◌≤◌, ◌&&◌, leb, length, take, drop};
ghost use Rattle.wire.specs.Numbers.{le};
ghost use Rattle.wire.specs.Output.{put};
ghost use Rattle.wire.specs.Keys.{key_of, pos_of};
ghost use Rattle.wire.specs.Held.{key_in, new_head};

use crate::bpos::Bpos;
use crate::{bpos, le};
use std::marker::Model;

// A key's value: at most 256 bytes. No heap: the bytes and how many there are stand beside one another. No `ArrayVec`: a clause would see a record with `items` in place of the bytes.
#[derive(Clone, Copy, Drop)]
pub struct Value {
    bytes: [u8; 256],
    len: usize,
}

// It is seen as its bytes; those behind them are 0.
impl Model for Value {
    ghost use Rattle.std.specs.Prelude.{ℕ, List, length, take};
    ghost use Rattle.std.proofs.Common.{length-take-le};
    ghost use Rattle.wire.specs.Filled.{filled, Filled};

    ghost Value = { List ℕ };

    ghost view = { λ v. take v.len v.bytes };

    ghost invariant = { λ v. Filled 256 v.len v.bytes };

    ghost inverse = { λ b. record { bytes = filled 256 b; len = length b } };

    ghost inverse_ok = { λ v f i. record {
      bytes = f.is i;
      len = length-take-le v.len v.bytes f.within i;
    } };
}

// What stands before a key's value. The type is a byte and no `KeyType`: a key that is read may have any.
#[derive(Clone, Copy, Drop)]
pub struct KeyHead {
    pub key_type: u8,
    pub size: u32,
    pub version_hi: u32,
    pub version_lo: u64,
    pub pos: Bpos,
}

// A key.
#[derive(Clone, Copy, Drop)]
pub struct Bkey {
    pub head: KeyHead,
    pub value: Value,
}

impl Value {
    // The value with these bytes. A key's length shows the bound.
    pub fn new(b: &[u8]) -> Value
        requires { length b.now ≤ 256 }
        ensures { result ≡ b.now }
    {
        let mut bytes = [0u8; 256];
        bytes[..b.len()].copy_from_slice(b);
        Value {
            bytes,
            len: b.len(),
        }
    }

    // Its bytes.
    pub fn as_slice(&self) -> &[u8]
        ensures gives { result.now ≡ self.now }
        ensures short { length self.now ≤ 256 }
    {
        &self.bytes[..self.len]
    }

    // Stores bytes from one of its own on. Who changes a value shows that it has them all.
    pub fn put(&mut self, at: usize, b: &[u8])
        requires { at + length b.now ≤ length self.old }
        ensures stored { self.new ≡ put self.old at b.now }
        ensures as_long { length self.new ≡ length self.old }
    {
        let bytes = &mut self.bytes;
        bytes[at..at + b.len()].copy_from_slice(b);
    }
}

impl KeyHead {
    // What stands before the value of a key that is made: its versions are 0.
    pub fn new(key_type: u8, size: u32, pos: Bpos) -> KeyHead
        ensures { result ≡ new_head key_type size pos }
    {
        KeyHead {
            key_type,
            size,
            version_hi: 0,
            version_lo: 0,
            pos,
        }
    }
}

// The key that a body holds. `key_sized`, or the layout that refusal 2 tests, shows the bounds.
pub fn read_key(body: &[u8]) -> Bkey
    requires { (37 ≤ length body.now) × (length body.now ≤ 293) }
    ensures { key_in result ≡ key_of body.now }
{
    let head = KeyHead {
        key_type: le::le8(body, 0),
        size: le::le32(body, 1),
        version_hi: le::le32(body, 5),
        version_lo: le::le64(body, 9),
        pos: bpos::read_pos(body, 17),
    };
    Bkey {
        head,
        value: Value::new(&body[37..]),
    }
}

// Whether a key's body may be so long: what stands before the value, and a value of at most 256 bytes.
pub fn key_sized(len: usize) -> bool
    ensures { result ≡ (leb 37 len && leb len 293) }
{
    (37..=293).contains(&len)
}

// The type of the key whose body starts at a place. The length of a key's field shows the bound.
// `type_at`, `size_at` and `pos_at` each ask for the 37 bytes: a type with the fact would be made where a part is read, and its making would ask for them. For a key at a place of a table, reader's `ListedKey` is that type.
pub fn type_at(s: &[u8], start: usize) -> u8
    requires { start + 37 ≤ length s.now }
    ensures { result ≡ le 1 (drop start s.now) }
{
    le::le8(s, start)
}

// The size of the key whose body starts at a place. The length of a key's field shows the bound.
pub fn size_at(s: &[u8], start: usize) -> u32
    requires { start + 37 ≤ length s.now }
    ensures { result ≡ le 4 (drop (start + 1) s.now) }
{
    le::le32(s, start + 1)
}

// The position of the key whose body starts at a place. The length of a key's field shows the bound.
pub fn pos_at(s: &[u8], start: usize) -> Bpos
    requires { start + 37 ≤ length s.now }
    ensures { result ≡ pos_of (drop (start + 17) s.now) }
{
    bpos::read_pos(s, start + 17)
}
