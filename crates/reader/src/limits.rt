// The limits of FORMAT.md on one key and on one field.
ghost use Rattle.std.specs.Prelude.{◌≡◌, not, ◌&&◌, ◌||◌, eqb, ◌≤◌, length};
ghost use Rattle.wire.specs.FieldsFound.{field_in};
ghost use Rattle.wire.specs.Kinds.{bucket_in_range, run_end_in_range};
ghost use Rattle.wire.specs.Positions.{bucket_in};
ghost use Rattle.wire.specs.Tags.{tag_number};
ghost use Rattle.reader.specs.CallFields.{key_fits, field_within, least_of};

use crate::named_field::NamedField;
use wire::bpos::Bpos;
use wire::key_types::KeyType;
use wire::tags::Tag;
use wire::trees::Tree;
use wire::{keys, kinds, positions};

// Whether an alloc key is within the limits: at inode 0 its bucket is in range.
#[inline(always)]
fn alloc_within(pos: Bpos) -> bool
    ensures { result ≡ (not (eqb pos.inode 0) || bucket_in_range (bucket_in pos)) }
{
    pos.inode != 0 || kinds::bucket_in_range(positions::bucket_in(pos))
}

// Whether a need-discard key is: one that is set is of a bucket in range.
#[inline(always)]
fn waiting_within(key_type: u8, pos: Bpos) -> bool
    ensures { result ≡ (not (eqb key_type 25) || bucket_in_range (bucket_in pos)) }
{
    key_type != KeyType::Set.number() || kinds::bucket_in_range(positions::bucket_in(pos))
}

// Whether a freespace key is: one that is set, at inode 0, ends in range.
#[inline(always)]
fn run_within(key_type: u8, pos: Bpos) -> bool
    ensures { result ≡ (not (eqb key_type 25 && eqb pos.inode 0) || run_end_in_range (bucket_in pos)) }
{
    key_type != KeyType::Set.number()
        || pos.inode != 0
        || kinds::run_end_in_range(positions::bucket_in(pos))
}

// Whether a key of a tag, by its type and its position, is within the limits. A reserved bucket is a key at inode 0 and its number.
#[tactic(auto, unfolding(crate::specs::CallFields::key_fits))]
fn key_within(tag: Tag, key_type: u8, pos: Bpos) -> bool
    ensures { result ≡ key_fits (tag_number tag) key_type pos }
{
    match tag {
        Tag::Reserved => kinds::bucket_in_range(positions::bucket_in(pos)),
        Tag::Key(Tree::Alloc) => alloc_within(pos),
        Tag::Key(Tree::NeedDiscard) => waiting_within(key_type, pos),
        Tag::Key(Tree::Freespace) => run_within(key_type, pos),
        _ => true,
    }
}

// Whether a key of a section, by its tag's number, its type and its position, is within the limits. A reserved bucket is a key at inode 0 and its number.
pub fn key_fits(section: u8, key_type: u8, pos: Bpos) -> bool
    ensures { result ≡ key_fits section key_type pos }
{
    let Ok(tag) = Tag::try_from(section) else {
        return true;
    };
    key_within(tag, key_type, pos)
}

// Whether a body of a field with a tag, after field 1, is within the limits. Tree by tree: of a key only what its limit asks for is read. The length that the tag asks shows the bound.
#[inline(always)]
#[tactic(auto, using(crate::proofs::OrderingLaws::within_cases), unfolding(crate::specs::CallFields::field_within))]
fn body_within(tag: Tag, body: &[u8]) -> bool
    requires { least_of (tag_number tag) ≤ length body.now }
    ensures { result ≡ field_within (record { tag = tag_number tag; body = body.now }) }
{
    match tag {
        Tag::Key(Tree::Alloc) => alloc_within(keys::pos_at(body, 0)),
        Tag::Key(Tree::NeedDiscard) => {
            waiting_within(keys::type_at(body, 0), keys::pos_at(body, 0))
        }
        Tag::Key(Tree::Freespace) => run_within(keys::type_at(body, 0), keys::pos_at(body, 0)),
        Tag::Reserved => kinds::bucket_in_range(kinds::read_bucket(body, 0)),
        _ => true,
    }
}

impl<'a> NamedField<'a> {
    // Whether a field after field 1 keeps the limits; one with a tag that has no name does. The length that its tag asks shows the bound.
    #[inline(always)]
    pub fn keeps_limits(self) -> bool
        requires { least_of self.field.tag ≤ length self.field.body.now }
        ensures { result ≡ field_within (field_in self.entry.field) }
    {
        match self.tag {
            Some(tag) => body_within(tag, self.field.body),
            None => true,
        }
    }
}
