// Fields 72: where each piece is placed.
ghost use Rattle.std.specs.Prelude.{◌≡◌, map};
ghost use Rattle.wire.specs.Encode.{encode, encode_field};
ghost use Rattle.calls.specs.ChangeList.{spot_field};
ghost use Rattle.calls.specs.Place.{placed_of, spot_at};
ghost use Rattle.calls.specs.Answers.{read_call};
ghost use Rattle.wire.specs.Output.{with_bytes};
ghost use Rattle.place_keys.specs.Plan.{placed_in};

use crate::placed::Placed;
use crate::plan::Plan;
use wire::output::Output;
use wire::tags::Tag;

// Where a piece is placed: device sector, stored sectors, bucket and generation.
pub fn put_spot(out: &mut Output, p: Placed)
    ensures { out.new ≡ with_bytes out.old (encode_field (spot_field (spot_at (placed_in p)))) }
{
    out.put_head(Tag::Spot.number(), 15);
    out.put_sector(p.first);
    out.put_u16(p.piece.stored);
    out.put_bucket_bytes(p.bucket);
    out.put_u8(p.generation);
}

// Where all pieces are placed, in order.
pub fn put_spots(out: &mut Output, plan: &Plan)
    ensures { out.new ≡ with_bytes out.old (encode (map spot_field (map spot_at (placed_of (read_call plan.now.list.now))))) }
{
    for p in plan.placed() {
        put_spot(out, p);
    }
}
