// The sorted form of a list: field 1, and the fields at the places of a table. Neighbours of the list are copied as one stretch.
ghost use Rattle.std.specs.Prelude.{◌≡◌, ◌++◌, List, ℕ};
ghost use Rattle.wire.specs.Bytes.{All};
ghost use Rattle.wire.specs.Output.{with_bytes};
ghost use Rattle.sort.specs.Form.{Placed, fields_at, form_bytes};

use reader::answer::Emit;
use reader::head;
use reader::head::Head;
use std::marker::Model;
use wire::fields;
use wire::output::Output;

// The fields at some places, in their order. The reader's table shows that they are fields.
pub fn put_fields(out: &mut Output, list: &[u8], places: &[u32])
    requires { All (Placed list.now) places.now }
    ensures { out.new ≡ with_bytes out.old (fields_at list.now places.now) }
{
    let mut from: usize = 0;
    let mut end: usize = 0;
    // Not by `chunk_by`: tried, and its `can_next` asks for a closure that is callable at any two numbers, where a field's length can be read only at a place of a field.
    for place in places {
        let o = *place as usize;
        if o != end + 3 {
            out.put_slice(&list[from..end]);
            from = o - 3;
        }
        end = o + fields::len_at(list, o);
    }
    out.put_slice(&list[from..end]);
}

// A list that was read: its bytes, its head, and the places of its other fields. A clause sees its sorted form.
#[derive(Drop)]
pub struct SortedForm<'a> {
    list: &'a [u8],
    head: Head,
    places: &'a [u32],
}

impl<'a> Model for SortedForm<'a> {
    ghost use Rattle.std.specs.Prelude.{ℕ, List};

    ghost Value = { List ℕ };

    ghost use Rattle.sort.specs.FormView.{form_view, IsForm};

    ghost view = { form_view };

    ghost invariant = { IsForm };
}

impl<'a> SortedForm<'a> {
    // The form of a list that was read. The reader's table shows that fields stand at its places. By its parts: a `ReadList` would ask for the keys of each tree too, which the form has no need of.
    pub fn new(list: &'a [u8], head: Head, places: &'a [u32]) -> SortedForm<'a>
        requires { All (Placed list.now) places.now }
        ensures { result ≡ form_bytes list.now head places.now }
    {
        SortedForm { list, head, places }
    }
}

impl<'a> Emit for SortedForm<'a> {
    ghost bytes = { λ f. f };

    fn emit(&self, out: &mut Output) {
        head::put_head_field(out, self.head);
        put_fields(out, self.list, self.places);
    }
}
