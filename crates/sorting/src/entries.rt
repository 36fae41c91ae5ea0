// Where the keys of a section stand: in a volume, and queued in a change list. A reserved bucket is a key at inode 0 and its number.
ghost use Rattle.std.specs.Prelude.{◌≡◌};
ghost use Rattle.sorting.specs.Entries.{is_sized, is_entry};
ghost use Rattle.sorting.specs.EntryPlaces.{EntryAt};

use crate::places;
use wire::bpos::Bpos;
use wire::fields::Fields;
use wire::key_types::KeyType;
use wire::tags::Tag;
use wire::trees::Tree;
use wire::{fields, keys};

// The section of the reserved buckets: `Tag::Reserved`, by its number, as a constant may call no function. A section is a number and no enum: `Entries::of` takes any number, and a
// narrower type would ask more.
pub const BUCKETS: u8 = 64;

// The sections in the order of a volume: the tags of the keys of each tree, and of the reserved buckets.
pub const SECTIONS: [u8; 7] = [
    Tree::Alloc as u8,
    Tree::Lru as u8,
    Tree::Freespace as u8,
    Tree::NeedDiscard as u8,
    Tree::Backpointers as u8,
    Tree::BucketGens as u8,
    BUCKETS,
];

// Whether the body of a key of a section may be so long.
pub fn is_sized(section: u8, len: usize) -> bool
    ensures { result ≡ is_sized section len }
{
    if section == BUCKETS {
        len == 4
    } else {
        keys::key_sized(len)
    }
}

// Whether a field with a tag and a length is of a section: of the reserved buckets in a volume, or reserved or unreserved by a change list.
#[tactic(auto, unfolding(crate::specs::Entries::is_entry, crate::specs::Entries::is_bucket, crate::specs::Places::section_of))]
fn is_entry(section: u8, tag: u8, len: usize) -> bool
    ensures { result ≡ is_entry section tag len }
{
    if section == BUCKETS {
        places::section_of(tag) == BUCKETS && is_sized(section, len)
    } else {
        tag == section && is_sized(section, len)
    }
}

// The type that a reserved bucket has as a key. The definition `entry_of` fixes the number: it only has to be another than that of a deletion.
const RESERVED_TYPE: u8 = 1;

// A key of a section: its body starts at a place of a list. Whoever makes one shows that a key of the section stands there.
#[derive(Clone, Copy, Drop)]
pub struct Entry<'a> {
    pub list: &'a [u8],
    pub section: u8,
    pub at: usize,
    pub ghost stands: { EntryAt section list.now at },
}

impl<'a> Entry<'a> {
    ghost use Rattle.std.specs.Prelude.{◌+◌, ◌≤◌, length};
    ghost use Rattle.sorting.specs.EntryPlaces.{size_at};
    ghost use Rattle.sorting.specs.EntrySteps.{entry_listed, entry_body};

    // Its position.
    pub fn pos(&self) -> Bpos
        ensures { result ≡ (entry_listed self.now).pos }
    {
        places::body_pos(self.list, self.section, self.at)
    }

    // Its type; a bucket that is unreserved has that of a deletion.
    pub fn key_type(&self) -> u8
        ensures { result ≡ (entry_listed self.now).type }
    {
        if self.section != BUCKETS {
            keys::type_at(self.list, self.at)
        } else if fields::tag_at(self.list, self.at) == Tag::Unreserved.number() {
            KeyType::Deleted.number()
        } else {
            RESERVED_TYPE
        }
    }

    // Where its body ends.
    #[tactic(auto, unfolding(crate::specs::EntryPlaces::size_at))]
    pub fn end(&self) -> usize
        ensures ends { result ≡ self.now.at + size_at self.now.list.now self.now.at }
        ensures within { result ≤ length self.now.list.now }
    {
        self.at + fields::len_at(self.list, self.at)
    }

    // Its body.
    pub fn body(&self) -> &'a [u8]
        ensures { result.now ≡ entry_body self.now }
    {
        &self.list[self.at..self.end()]
    }
}

// The keys of a section that are left in a list.
#[derive(Drop)]
pub struct Entries<'a> {
    pub fields: Fields<'a>,
    pub section: u8,
}

impl<'a> Entries<'a> {
    // All keys of a section in a list.
    pub fn of(list: &'a [u8], section: u8) -> Entries<'a>
        ensures { (result.fields.list.now ≡ list.now) × (result.fields.at ≡ 0) × (result.section ≡ section) }
    {
        Entries {
            fields: Fields::of(list),
            section,
        }
    }
}

impl<'a> Iterator for Entries<'a> {
    ghost use Rattle.std.specs.Prelude.{◌-◌, length};
    ghost use Rattle.std.specs.Iterator.{at_most};
    ghost use Rattle.sorting.specs.EntrySteps.{EntryStepped};

    type Item = Entry<'a>;

    ghost next_gives = { λ before key after. EntryStepped before key after };

    ghost remaining = { λ left. at_most (length left.fields.list.now - left.fields.at) };

    // The next key, if one is left.
    fn next(&mut self) -> Option<Entry<'a>> {
        let section = self.section;
        let field = self
            .fields
            .find(|field| is_entry(section, field.tag, field.body.len()))?;
        Some(Entry {
            list: self.fields.list,
            section,
            at: field.start,
        })
    }
}
