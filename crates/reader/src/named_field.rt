// A field by the name of its tag.
ghost use Rattle.reader.specs.NamedFields.{TagOf};

use wire::fields::Field;
use wire::tags::Tag;

// A field and its tag, which is looked up once for all that is asked of the field; none where the tag has no name. That the body is as long as the tag asks is no ghost field: `may_stand` tests it of a field that is named already.
#[derive(Clone, Copy, Drop)]
pub struct NamedField<'a> {
    pub field: Field<'a>,
    pub tag: Option<Tag>,
    pub ghost named: { TagOf field.tag tag },
}

impl<'a> From<Field<'a>> for NamedField<'a> {
    ghost use Rattle.std.specs.Prelude.{◌≡◌};

    ghost from_gives = { λ field named. named.field ≡ field };

    // Any field with its tag by name. Inlined, as the pass over a list asks it of each field.
    #[inline(always)]
    fn from(field: Field<'a>) -> NamedField<'a> {
        NamedField {
            field,
            tag: Tag::try_from(field.tag).ok(),
        }
    }
}
