// Numbers in decimal.
ghost use Rattle.std.specs.Prelude.{◌≡◌, ◌+◌, ◌<◌};
ghost use Rattle.text.specs.Bytes.{zero_digit};
ghost use Rattle.write.specs.Put.{written, put_at};
ghost use Rattle.write.specs.Number.{count_text, signed_text};

use crate::bytes::put;
use text::count::{MINUS, ZERO};

// The byte of a digit.
pub(crate) fn digit(n: usize) -> u8
    requires { n < 10 }
    ensures { result ≡ zero_digit + n }
{
    ZERO + n as u8
}

// A count.
pub fn put_number(out: &mut [u8], at: usize, n: usize) -> usize
    ensures { written out.new result ≡ put_at out.old at (count_text n) }
{
    if n < 10 {
        return put(out, at, digit(n));
    }
    let next = put_number(out, at, n / 10);
    put(out, next, digit(n % 10))
}

// An identifier.
pub fn put_signed(out: &mut [u8], at: usize, z: i64) -> usize
    ensures { written out.new result ≡ put_at out.old at (signed_text z) }
{
    let size = z.unsigned_abs() as usize;
    if z < 0 {
        let next = put(out, at, MINUS);
        return put_number(out, next, size);
    }
    put_number(out, at, size)
}
