// Of sorted places, the last at each position.
ghost use Rattle.std.specs.Prelude.{◌≡◌, ◌≤◌, length, take, drop, get_or};
ghost use Rattle.wire.specs.Bytes.{All};
ghost use Rattle.sorting.specs.Lasts.{ahead, lasts};
ghost use Rattle.sorting.specs.Places.{FieldInside, place_less};

use crate::places;

// Whether the field at the first of some places stands before the next, or no other is left. `keep_last` shows the bounds.
// A list and places of it are no struct: `keep_last` writes the places between two reads, so that a struct would be made anew, and its fact shown anew.
fn is_ahead(s: &[u8], t: &[usize]) -> bool
    requires { All (FieldInside s.now) t.now }
    ensures { result ≡ ahead (place_less s.now) (get_or t.now 0 0) (drop 1 t.now) }
{
    match t {
        [first, next, ..] => places::before(s, *first, *next),
        _ => true,
    }
}

// Of places in order, the last at each position, moved to the front in order; how many they are. The caller's table shows the bounds.
pub fn keep_last(s: &[u8], t: &mut [usize]) -> usize
    requires { All (FieldInside s.now) t.old }
    ensures { (result ≤ length t.new) × (take result t.new ≡ lasts (place_less s.now) t.old) }
{
    // By index, as no form is plainer: the slice that is read is the one that is written, so that no iterator may hold it.
    let mut n = 0;
    for i in 0..t.len() {
        if is_ahead(s, &t[i..]) {
            t[n] = t[i];
            n += 1;
        }
    }
    n
}
