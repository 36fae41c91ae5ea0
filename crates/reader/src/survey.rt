// One pass over a call list or a volume: its layout, its limits, whether its fields are in order, and where they stand.
ghost use Rattle.std.specs.Prelude.{◌≡◌, ◌≤◌, length};
ghost use Rattle.wire.specs.FieldsFound.{field_in};
ghost use Rattle.reader.specs.Asked.{call_asked, any_asked};
ghost use Rattle.reader.specs.CallFields.{head_field_ok, least_of};
ghost use Rattle.reader.specs.Table.{rank_of, Free, FieldNoted, Fits};
ghost use Rattle.reader.specs.Surveyed.{HeadFirst, Surveyed, OrderSurveyed};

use crate::asked::Asked;
use crate::head;
use crate::named_field::NamedField;
use crate::table::PlaceTable;
use wire::fields::{Field, Fields};
use wire::tags::Tag;

// What the pass finds of a list that keeps the layout.
#[derive(Clone, Copy, Drop)]
pub struct Laid {
    // Where the body of field 1 starts.
    pub head_at: usize,
    // Whether the other fields are in order.
    pub ordered: bool,
    // How many of them there are of each rank; none where a limit beside the head's is passed.
    pub counts: Option<[usize; 8]>,
}

// Whether the body of a field 1 is one of the call that is asked for, or of any.
#[tactic(auto, using(crate::proofs::HeadLaws::head_cases))]
fn head_field_ok(asked: Asked, body: &[u8]) -> bool
    ensures { result ≡ head_field_ok (call_asked asked) (any_asked asked) body.now }
{
    if body.len() != 39 {
        return false;
    }
    let first = head::read_head(body, 0);
    head::head_ok(first) && asked.takes(first.call)
}

// Such a field 1, if one stands first.
fn head_first(s: &[u8], asked: Asked) -> Option<Field>
    ensures { HeadFirst (call_asked asked) (any_asked asked) s.now result }
{
    let field = Fields::of(s).next()?;
    let is_head = field.tag == Tag::Head.number() && head_field_ok(asked, field.body);
    is_head.then_some(field)
}

// A field's place is noted, unless a limit is passed, by it or before it. The length that its tag asks shows the bound. Inlined, as a pass asks it of each field.
#[inline(always)]
fn note_field(table: &mut PlaceTable, named: NamedField)
    requires { (least_of named.field.tag ≤ length named.field.body.now) × Free table.old (rank_of named.field.tag) }
    ensures { FieldNoted (field_in named.entry.field) named.entry.field.start table.old table.new }
{
    if table.counts.is_none() {
        return;
    }
    if !named.keeps_limits() || !table.try_note(named.rank(), named.field.start) {
        table.counts = None;
    }
}

// The pass over a list in any order, of the call that is asked for, or of whatever call its head names: field 1 may stand anywhere, and no order is told. None where the list breaks the layout, as a field that passes the end does. `Fits` says that the table that is lent is long enough.
fn survey_any(s: &[u8], asked: Asked, index: &mut [u32]) -> Option<Laid>
    requires { Fits s.now index.old }
    ensures { Surveyed (call_asked asked) (any_asked asked) s.now index.new result }
{
    let mut table = PlaceTable::new(index);
    let mut head = None;
    let mut fields = Fields::of(s);
    // By `while let`: tried `for` over `by_ref`; that `fields` is then as the last step of the loop left it stays open.
    while let Some(field) = fields.next() {
        let named = NamedField::from(field);
        if named.may_stand(asked.call()) {
            note_field(&mut table, named);
        } else {
            if field.tag != Tag::Head.number()
                || head.is_some()
                || !head_field_ok(asked, field.body)
            {
                return None;
            }
            head = Some(field.start);
        }
    }
    if !fields.at_end() {
        return None;
    }
    Some(Laid {
        head_at: head?,
        ordered: false,
        counts: table.counts,
    })
}

// The pass over a list that begins with field 1 and whose other fields are in order; none of any other list. Field 1 is the one before the first of them. `Fits` says that the table that is lent is long enough.
fn survey_ordered(s: &[u8], asked: Asked, index: &mut [u32]) -> Option<Laid>
    requires { Fits s.now index.old }
    ensures { OrderSurveyed (call_asked asked) (any_asked asked) s.now index.new result }
{
    let head_field = head_first(s, asked)?;
    let mut table = PlaceTable::new(index);
    let mut last = head_field;
    let mut fields = Fields::from_place(s, head_field.start + head_field.body.len());
    // By `while let`: tried `for` over `by_ref`; that `fields` is then as the last step of the loop left it stays open.
    while let Some(field) = fields.next() {
        let named = NamedField::from(field);
        if !named.may_stand(asked.call()) || !named.follows(last) {
            return None;
        }
        note_field(&mut table, named);
        last = field;
    }
    if !fields.at_end() {
        return None;
    }
    Some(Laid {
        head_at: head_field.start,
        ordered: true,
        counts: table.counts,
    })
}

// The pass over a list in order; where it is none, over it again in any order; none where the list breaks the layout. `Fits` says that the table that is lent is long enough. It stands in each contract: a struct of a list and its table would have to say beside it that its table is the one that was lent.
pub fn survey(s: &[u8], asked: Asked, index: &mut [u32]) -> Option<Laid>
    requires { Fits s.now index.old }
    ensures { Surveyed (call_asked asked) (any_asked asked) s.now index.new result }
{
    // By `match`: tried `or_else`; what the table holds that its closure borrows stays open.
    match survey_ordered(s, asked, index) {
        Some(laid) => Some(laid),
        None => survey_any(s, asked, index),
    }
}
