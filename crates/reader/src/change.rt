// The layout of a change list.
ghost use Rattle.std.specs.Prelude.{◌≡◌, ◌||◌, eqb};
ghost use Rattle.wire.specs.FieldsFound.{field_in};
ghost use Rattle.calls.specs.ChangeList.{change_laid_out};
ghost use Rattle.reader.specs.Bodies.{root_ok, change_field_ok, tag_after};

use crate::keys;
use crate::roots::Root;
use wire::fields::{Field, Fields};
use wire::tags::Tag;
use wire::trees::Tree;
use wire::{keys as wire_keys, le};

// Whether a field's body names a root.
#[tactic(auto, unfolding(crate::specs::Bodies::root_ok, calls::specs::ChangeList::root_listed))]
fn root_ok(body: &[u8]) -> bool
    ensures { result ≡ root_ok body.now }
{
    body.len() == 1 && Root::try_from(le::le8(body, 0)).is_ok()
}

// Whether a row has one number or three.
fn row_sized(len: usize) -> bool
    ensures { result ≡ (eqb len 24 || eqb len 40) }
{
    len == 24 || len == 40
}

// Whether a field may stand in a change list.
#[tactic(auto, using(crate::proofs::ShapeLaws::change_cases))]
fn change_field_ok(field: Field) -> bool
    ensures { result ≡ change_field_ok (field_in field.entry) }
{
    let len = field.body.len();
    let Ok(tag) = Tag::try_from(field.tag) else {
        return false;
    };
    match tag {
        Tag::Key(Tree::Extents) => wire_keys::key_sized(len),
        Tag::Key(_) => keys::key_ok(field.body),
        Tag::Root => root_ok(field.body),
        Tag::Taken | Tag::Unreserved => len == 4,
        Tag::Spot => len == 15,
        Tag::Row => row_sized(len),
        Tag::Sectors => len == 8,
        Tag::End => len == 0,
        _ => false,
    }
}

// Whether a tag may stand after another: tags ascend within a batch, and begin anew after the end of one.
#[tactic(auto, unfolding(crate::specs::Bodies::tag_after))]
fn tag_after(last: u8, tag: u8) -> bool
    ensures { result ≡ tag_after last tag }
{
    last == Tag::End.number() || last <= tag
}

// Whether a change list keeps its layout; a field that passes the end breaks it.
pub fn check_change(s: &[u8]) -> bool
    ensures { result ≡ change_laid_out s.now }
{
    let mut fields = Fields::of(s);
    let mut last = Tag::End.number();
    // By `while let`: tried `for` over `by_ref`; that `fields` is then as the last step of the loop left it stays open.
    while let Some(field) = fields.next() {
        if !change_field_ok(field) || !tag_after(last, field.tag) {
            return false;
        }
        last = field.tag;
    }
    fields.at_end() && last == Tag::End.number()
}
