// Numbers as text. Not by `write!`: what it writes is known where it answers `Ok`, nothing ensures that it does, and these functions cannot fail.
ghost use Rattle.std.specs.Int.{cast_unsigned, w64};
ghost use Rattle.std.specs.Prelude.{◌≡◌, ◌<◌, ◌≤◌};
ghost use Rattle.wire.specs.Output.{with_bytes};
ghost use Rattle.lines.specs.Digits.{digit, last_digits, width, decimal, signed, hexadecimal};

use wire::output::Output;

// The digit of a number below 16. A base of at most 16 shows the bound.
fn digit_of(d: u64) -> u8
    requires { d < 16 }
    ensures { result ≡ digit d }
{
    char::from_digit(d as u32, 16).unwrap() as u8
}

// The last so many digits of a number, the highest first.
fn put_digits(out: &mut Output, base: u64, count: usize, n: u64)
    requires { (2 ≤ base) × (base ≤ 16) × (count ≤ 20) }
    ensures { out.new ≡ with_bytes out.old (last_digits base count n) }
{
    let mut text = [0u8; 20];
    let mut rest = n;
    // By index: after an adapter of iter_mut nothing is known of an array (Rattle's LIBRARY.md).
    for i in (20 - count..20).rev() {
        text[i] = digit_of(rest % base);
        rest /= base;
    }
    out.put_slice(&text[20 - count..]);
}

// How many decimal digits a number has.
fn width_of(n: u64) -> usize
    ensures { result ≡ width 19 n }
{
    n.checked_ilog10().unwrap_or(0) as usize + 1
}

// A number in decimal.
pub fn put_decimal(out: &mut Output, n: u64)
    ensures { out.new ≡ with_bytes out.old (decimal n) }
{
    put_digits(out, 10, width_of(n), n);
}

// A signed number in decimal.
pub fn put_signed(out: &mut Output, n: i64)
    ensures { out.new ≡ with_bytes out.old (signed (cast_unsigned w64 n)) }
{
    if n < 0 {
        out.put_u8(b'-');
    }
    put_decimal(out, n.unsigned_abs());
}

// A number in 16 hexadecimal digits.
pub fn put_hexadecimal(out: &mut Output, n: u64)
    ensures { out.new ≡ with_bytes out.old (hexadecimal n) }
{
    put_digits(out, 16, 16, n);
}
