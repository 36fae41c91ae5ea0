// A walk along a table, from an index on, as far as a test holds.
ghost use Rattle.std.specs.Prelude.{◌≡◌, Bool, ◌+◌, ◌≤◌, length, drop};
ghost use Rattle.std.specs.List.{prefix_len};
ghost use Rattle.wire.specs.Bytes.{All};

// The first index, from one on, at which a test fails; the table's length where it fails at none. Where the walk before ended shows the bound.
pub fn skip_while<T: Copy, F: Fn(T) -> bool>(table: &[T], from: usize, test: F) -> usize
    requires from_within { from ≤ length table.now }
    requires callable { All (F.pre test) table.now }
    ensures { (t : T → Bool) → ((x : _) (r : Bool) → F.post test x r → r ≡ t x) → result ≡ from + prefix_len t (drop from table.now) }
{
    let passes = |x: &&T|
        requires { F.pre test x.now.now }
    { test(**x) };
    from + table[from..].iter().take_while(passes).count()
}
