// The rows of a release.
ghost use Rattle.std.specs.Prelude.{◌≡◌, ◌<◌, ◌^◌, [], ◌∷◌, pos, neg_ℤ, ◌+ℤ◌};
ghost use Rattle.wire.specs.Output.{with_bytes};
ghost use Rattle.calls.specs.Accounting.{sectors_row, buckets_row};
ghost use Rattle.accounting.specs.RowBytes.{rows_bytes};

use crate::counters;
use format::data_types::DataType;
use wire::output::Output;
use wire::rows;

// What the rows of a release are made of: the buckets emptied, the sectors freed, the unused sectors that come to buckets that stay, and those that the buckets emptied had.
#[derive(Clone, Copy, Drop)]
pub struct Amounts {
    pub emptied: u64,
    pub total: u64,
    pub added: u64,
    pub removed: u64,
}

// User sectors, user buckets and buckets that wait for discard. What counts the amounts shows their bounds.
pub fn put_rows(out: &mut Output, a: Amounts)
    requires { (a.emptied < 2 ^ 62) × (a.total < 2 ^ 62) × (a.added < 2 ^ 62) × (a.removed < 2 ^ 62) }
    ensures { out.new ≡ with_bytes out.old (rows_bytes (sectors_row (neg_ℤ (pos a.total)) ∷ buckets_row 4 (neg_ℤ (pos a.emptied)) (neg_ℤ (pos a.total)) (pos a.added +ℤ neg_ℤ (pos a.removed)) ∷ buckets_row 9 (pos a.emptied) (pos 0) (pos 0) ∷ [])) }
{
    let freed = rows::minus(a.total);
    counters::put_sectors_row(out, freed);
    counters::put_buckets_row(
        out,
        DataType::User.number(),
        rows::minus(a.emptied),
        freed,
        counters::difference(a.added, a.removed),
    );
    counters::put_buckets_row(
        out,
        DataType::NeedDiscard.number(),
        rows::plus(a.emptied),
        0,
        0,
    );
}
