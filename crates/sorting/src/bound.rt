// Positions on one side of another.
ghost use Rattle.std.specs.Prelude.{◌≡◌};
ghost use Rattle.sorting.specs.Bounds.{over, under, at_most, within};

use wire::bpos;
use wire::bpos::Bpos;

// The position that others lie on one side of; none bounds nothing.
pub type Bound = Option<Bpos>;

// Whether a position is above the bound.
#[tactic(auto, unfolding(crate::specs::Bounds::over))]
pub fn is_over(b: Bound, p: Bpos) -> bool
    ensures { result ≡ over b p }
{
    b.is_none_or(|q| bpos::pos_less(q, p))
}

// Whether a position is below the bound.
#[tactic(auto, unfolding(crate::specs::Bounds::under))]
pub fn is_under(b: Bound, p: Bpos) -> bool
    ensures { result ≡ under b p }
{
    b.is_none_or(|q| bpos::pos_less(p, q))
}

// Whether a position is not above the bound.
#[tactic(auto, unfolding(crate::specs::Bounds::at_most))]
fn is_at_most(b: Bound, p: Bpos) -> bool
    ensures { result ≡ at_most b p }
{
    b.is_none_or(|q| !bpos::pos_less(q, p))
}

// Whether a position is above one bound, and not above another.
#[tactic(auto, unfolding(crate::specs::Bounds::within))]
pub fn is_within(low: Bound, high: Bound, p: Bpos) -> bool
    ensures { result ≡ within low high p }
{
    is_over(low, p) && is_at_most(high, p)
}
