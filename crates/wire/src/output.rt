// The bytes that are written one after the other into a slice. What has no room is left out, and counted all the same, so that a run into no room tells the length.
// One function for each width, as the type of a number tells how many bytes it has: std has no trait that joins them, and a clause over that of num_traits would name its members in place of `le_bytes`.
#![tactic(auto, using(crate::proofs::AppendLaws::emitted), unfolding(crate::specs::Encode::head_bytes, crate::specs::Encode::encode_field, crate::specs::Encode::pos_bytes, crate::specs::Encode::key_start))]

ghost use Rattle.std.specs.Prelude.{◌≡◌, ◌+◌, ◌-◌, ◌≤◌, min, max, [], ◌∷◌, length, take};
ghost use Rattle.wire.specs.Numbers.{le_bytes, words_bytes};
ghost use Rattle.wire.specs.Held.{key_in, key_with};
ghost use Rattle.wire.specs.Kinds.{bucket_bytes, sector_bytes, file_sector_bytes};
ghost use Rattle.wire.specs.Encode.{head_bytes, encode_field, pos_bytes, key_start, key_field};
ghost use Rattle.wire.specs.Output.{put, cap, with_bytes};

use crate::bpos::Bpos;
use crate::keys::{Bkey, KeyHead};
use crate::kinds::{Bucket, DeviceSector, FileSector};

// A slice that is lent, and the place in it that the next byte goes to. No slice of what is left: the place may pass the end, where bytes are counted and not written.
#[derive(Drop)]
pub struct Output<'a> {
    pub bytes: &'a mut [u8],
    pub at: usize,
}

// A number's bytes from a place of a slice on; those past its end are left out.
fn store(bytes: &mut [u8], at: usize, b: &[u8])
    ensures { bytes.new ≡ put bytes.old at (take (cap - at) b.now) }
{
    if at < bytes.len() {
        let room = bytes.len() - at;
        if b.len() <= room {
            bytes[at..at + b.len()].copy_from_slice(b);
        } else {
            bytes[at..].copy_from_slice(&b[..room]);
        }
    }
}

// The same of any bytes. By index: tried `copy_from_slice`, and where the bytes may lie anywhere, which a number's do not, an archive for C asks for `memmove` by it.
fn store_slice(bytes: &mut [u8], at: usize, b: &[u8])
    ensures { bytes.new ≡ put bytes.old at (take (cap - at) b.now) }
{
    if at < bytes.len() {
        let n = b.len().min(bytes.len() - at);
        for i in 0..n {
            bytes[at + i] = b[i];
        }
    }
}

// The place n bytes after a place.
fn place_after(at: usize, n: usize) -> usize
    ensures { result ≡ max at (min (at + n) cap) }
{
    at.saturating_add(n)
}

impl<'a> Output<'a> {
    // The front of a slice.
    pub fn new(bytes: &'a mut [u8]) -> Output<'a>
        ensures same_reference { result.bytes.ghost_name ≡ bytes.entry.ghost_name }
        ensures same_bytes { result.bytes.now ≡ bytes.old }
        ensures front { result.at ≡ 0 }
    {
        Output { bytes, at: 0 }
    }

    // Some bytes.
    #[tactic(auto, unfolding(crate::specs::Output::with_bytes))]
    pub fn put_slice(&mut self, b: &[u8])
        ensures { self.new ≡ with_bytes self.old b.now }
    {
        store_slice(self.bytes, self.at, b);
        self.at = place_after(self.at, b.len());
    }

    // The bytes of a number.
    #[tactic(auto, unfolding(crate::specs::Output::with_bytes))]
    pub(crate) fn put_number(&mut self, b: &[u8])
        ensures { self.new ≡ with_bytes self.old b.now }
    {
        store(self.bytes, self.at, b);
        self.at = place_after(self.at, b.len());
    }

    // One byte.
    pub fn put_u8(&mut self, x: u8)
        ensures { self.new ≡ with_bytes self.old (x ∷ []) }
    {
        self.put_number(&[x]);
    }

    // A number in two bytes, the lowest first.
    #[tactic(auto, unfolding(crate::specs::Numbers::le_bytes))]
    pub fn put_u16(&mut self, x: u16)
        ensures { self.new ≡ with_bytes self.old (le_bytes 2 x) }
    {
        self.put_number(&x.to_le_bytes());
    }

    // A number in four bytes.
    pub fn put_u32(&mut self, x: u32)
        ensures { self.new ≡ with_bytes self.old (le_bytes 4 x) }
    {
        self.put_number(&x.to_le_bytes());
    }

    // A number in eight bytes.
    pub fn put_u64(&mut self, x: u64)
        ensures { self.new ≡ with_bytes self.old (le_bytes 8 x) }
    {
        self.put_number(&x.to_le_bytes());
    }

    // A field's tag, and its length in two bytes, which a remainder brings it into: each body that is written is shorter than 65,536 bytes.
    pub fn put_head(&mut self, tag: u8, n: usize)
        ensures { self.new ≡ with_bytes self.old (head_bytes tag n) }
    {
        self.put_u8(tag);
        self.put_u16((n % 65536) as u16);
    }

    // A bucket in four bytes, which a remainder brings its number into: the limit on bucket numbers shows that nothing of it is lost.
    pub fn put_bucket_bytes(&mut self, b: Bucket)
        ensures { self.new ≡ with_bytes self.old (bucket_bytes b) }
    {
        self.put_u32((b.0 % 4294967296) as u32);
    }

    // A field with one bucket: tags 64, 71 and 75.
    #[tactic(auto, using(crate::proofs::AppendLaws::emitted), unfolding(crate::specs::Numbers::le_bytes, crate::specs::Encode::encode_field))]
    pub fn put_bucket(&mut self, tag: u8, b: Bucket)
        ensures { self.new ≡ with_bytes self.old (encode_field (record { tag = tag; body = bucket_bytes b })) }
    {
        self.put_head(tag, 4);
        self.put_bucket_bytes(b);
    }

    // A device sector in eight bytes. It and a file sector have a function each, of one line: one for both asks for a trait with a law, two impls and a function over them.
    pub fn put_sector(&mut self, d: DeviceSector)
        ensures { self.new ≡ with_bytes self.old (sector_bytes d) }
    {
        self.put_u64(d.0);
    }

    // A file sector in eight bytes.
    pub fn put_file_sector(&mut self, f: FileSector)
        ensures { self.new ≡ with_bytes self.old (file_sector_bytes f) }
    {
        self.put_u64(f.0);
    }

    // Words of eight bytes.
    pub fn put_words(&mut self, words: &[u64])
        ensures { self.new ≡ with_bytes self.old (words_bytes words.now) }
    {
        for x in words {
            self.put_u64(*x);
        }
    }

    // A position in twenty bytes.
    pub fn put_pos(&mut self, p: Bpos)
        ensures { self.new ≡ with_bytes self.old (pos_bytes p) }
    {
        self.put_u64(p.inode);
        self.put_u64(p.offset);
        self.put_u32(p.snapshot);
    }

    // The 37 bytes before a key's value.
    pub fn put_key_start(&mut self, h: KeyHead)
        ensures { self.new ≡ with_bytes self.old (key_start (key_with h [])) }
    {
        self.put_u8(h.key_type);
        self.put_u32(h.size);
        self.put_u32(h.version_hi);
        self.put_u64(h.version_lo);
        self.put_pos(h.pos);
    }

    // A key of a tree with no value.
    #[tactic(auto, unfolding(crate::specs::Numbers::words_bytes, crate::specs::Numbers::each))]
    pub fn put_bare_key(&mut self, tree: u8, h: KeyHead)
        ensures { self.new ≡ with_bytes self.old (encode_field (key_field tree (key_with h []))) }
    {
        self.put_words_key(tree, h, &[]);
    }

    // A key of a tree.
    pub fn put_key(&mut self, tree: u8, k: &Bkey)
        ensures { self.new ≡ with_bytes self.old (encode_field (key_field tree (key_in k.now))) }
    {
        let value = k.value.as_slice();
        self.put_head(tree, 37 + value.len());
        self.put_key_start(k.head);
        self.put_slice(value);
    }

    // A key of a tree whose value is words: an alloc value has eight, a backpointer four, an extent's value at most three. The two lines before the value stand in `put_key` too: a function for them would have more lines than it saves, and its clause would tell of a field that is not whole.
    pub fn put_words_key(&mut self, tree: u8, h: KeyHead, words: &[u64])
        requires { length words.now ≤ 8 }
        ensures { self.new ≡ with_bytes self.old (encode_field (key_field tree (key_with h (words_bytes words.now)))) }
    {
        self.put_head(tree, 37 + 8 * words.len());
        self.put_key_start(h);
        self.put_words(words);
    }
}
