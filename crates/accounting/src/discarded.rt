// The rows of a discard.
ghost use Rattle.std.specs.Prelude.{◌≡◌, ◌<◌, ◌^◌, [], ◌∷◌, pos, neg_ℤ};
ghost use Rattle.wire.specs.Output.{with_bytes};
ghost use Rattle.calls.specs.Accounting.{buckets_row};
ghost use Rattle.accounting.specs.RowBytes.{rows_bytes};

use crate::counters;
use format::data_types::DataType;
use wire::output::Output;
use wire::rows;

// As many buckets as a batch has go from those that wait to those that are free. The limits show the bound.
pub fn put_rows(out: &mut Output, buckets: u64)
    requires { buckets < 2 ^ 63 }
    ensures { out.new ≡ with_bytes out.old (rows_bytes (buckets_row 0 (pos buckets) (pos 0) (pos 0) ∷ buckets_row 9 (neg_ℤ (pos buckets)) (pos 0) (pos 0) ∷ [])) }
{
    counters::put_buckets_row(out, DataType::Free.number(), rows::plus(buckets), 0, 0);
    counters::put_buckets_row(
        out,
        DataType::NeedDiscard.number(),
        rows::minus(buckets),
        0,
        0,
    );
}
