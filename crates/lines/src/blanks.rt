// Words of a line after its first, with a blank before each.
ghost use Rattle.std.specs.Int.{cast_unsigned, w64};
ghost use Rattle.std.specs.Prelude.{◌≡◌, ◌+◌, ◌/◌, ◌≤◌, ◌∷◌, length};
ghost use Rattle.wire.specs.Numbers.{le};
ghost use Rattle.wire.specs.Output.{with_bytes};
ghost use Rattle.lines.specs.Digits.{decimal, signed, hexadecimal};
ghost use Rattle.lines.specs.Lines.{words, numbers, blanked};

use crate::digits;
use wire::output::Output;

// A blank and a number in decimal. A function for each kind of word: one that takes the word as a closure would leave each of them its contract and a body as long.
pub fn put_next_decimal(out: &mut Output, n: u64)
    ensures { out.new ≡ with_bytes out.old (32 ∷ decimal n) }
{
    out.put_u8(b' ');
    digits::put_decimal(out, n);
}

// A blank and a signed number.
fn put_next_signed(out: &mut Output, n: i64)
    ensures { out.new ≡ with_bytes out.old (32 ∷ signed (cast_unsigned w64 n)) }
{
    out.put_u8(b' ');
    digits::put_signed(out, n);
}

// A blank and a word in hexadecimal.
pub fn put_next_word(out: &mut Output, n: u64)
    ensures { out.new ≡ with_bytes out.old (32 ∷ hexadecimal n) }
{
    out.put_u8(b' ');
    digits::put_hexadecimal(out, n);
}

// The number in at most eight bytes. Those that are missing count as 0.
fn number_of(part: &[u8]) -> u64
    requires { length part.now ≤ 8 }
    ensures { result ≡ le 8 part.now }
{
    let mut bytes = [0u8; 8];
    bytes[..part.len()].copy_from_slice(part);
    u64::from_le_bytes(bytes)
}

// The signed numbers of eight bytes that a slice holds.
pub fn put_numbers(out: &mut Output, s: &[u8])
    ensures { out.new ≡ with_bytes out.old (blanked (numbers (length s.now / 8) s.now)) }
{
    let (parts, _) = s.as_chunks::<8>();
    for x in parts {
        put_next_signed(out, i64::from_le_bytes(*x));
    }
}

// The words of a value.
pub fn put_words(out: &mut Output, value: &[u8])
    ensures { out.new ≡ with_bytes out.old (blanked (words ((length value.now + 7) / 8) value.now)) }
{
    for part in value.chunks(8) {
        put_next_word(out, number_of(part));
    }
}
