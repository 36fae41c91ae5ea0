// The fields beside field 1: each by itself, and in order after the one before it.
ghost use Rattle.std.specs.Prelude.{◌≡◌, ◌≤◌, length};
ghost use Rattle.wire.specs.FieldsFound.{field_in};
ghost use Rattle.wire.specs.Tags.{tag_number};
ghost use Rattle.reader.specs.CallFields.{call_field_ok, least_of};
ghost use Rattle.reader.specs.CallFields as specs;

use crate::call_kinds::Call;
use crate::keys;
use crate::named_field::NamedField;
use wire::fields::Field;
use wire::tags::Tag;
use wire::trees::Tree;
use wire::{bpos, keys as wire_keys, kinds};

// Whether two bodies of a tag, side by side, ascend. The length that the tag asks shows the bounds. By number and not by name: for each tag below 15, that of field 1 too, the clause says what it says for a key's tag.
#[tactic(auto, using(crate::proofs::OrderingLaws::ascends_cases))]
fn ascends(tag: u8, before: &[u8], body: &[u8]) -> bool
    requires { (least_of tag ≤ length before.now) × (least_of tag ≤ length body.now) }
    ensures { result ≡ specs.ascends tag before.now body.now }
{
    match tag {
        0..=14 => bpos::pos_less(wire_keys::pos_at(before, 0), wire_keys::pos_at(body, 0)),
        64 => kinds::read_bucket(before, 0) < kinds::read_bucket(body, 0),
        _ => true,
    }
}

// Whether a body may stand in a field with a tag beside field 1, in a call's list.
#[inline(always)]
#[tactic(auto, using(crate::proofs::ShapeLaws::call_cases))]
fn body_may_stand(tag: Tag, call: u8, body: &[u8]) -> bool
    ensures { result ≡ call_field_ok call (record { tag = tag_number tag; body = body.now }) }
{
    let len = body.len();
    match tag {
        Tag::Key(Tree::Extents) => false,
        Tag::Key(_) => keys::key_ok(body),
        Tag::Reserved => len == 4,
        Tag::Piece => call == Call::Place.number() && len == 13,
        Tag::Freed => call == Call::Release.number() && len == 10,
        _ => false,
    }
}

impl<'a> NamedField<'a> {
    // Whether a field beside field 1 may stand in a call's list; one with a tag that has no name may not.
    #[inline(always)]
    pub fn may_stand(self, call: u8) -> bool
        ensures { result ≡ call_field_ok call (field_in self.entry.field) }
    {
        match self.tag {
            Some(tag) => body_may_stand(tag, call, self.field.body),
            None => false,
        }
    }

    // Whether a field stands in order after another. The length that its tag asks, of both where they have one tag, shows the bounds.
    #[tactic(auto, using(crate::proofs::OrderingLaws::follows_cases))]
    pub fn follows(self, last: Field) -> bool
        requires { (last.tag ≡ self.field.tag → least_of self.field.tag ≤ length last.body.now) × (least_of self.field.tag ≤ length self.field.body.now) }
        ensures { result ≡ specs.follows (field_in last.entry) (field_in self.entry.field) }
    {
        let field = self.field;
        last.tag < field.tag || (last.tag == field.tag && ascends(field.tag, last.body, field.body))
    }
}
