// Millionths as a decimal.
ghost use Rattle.std.specs.Prelude.{◌≡◌, ◌<◌};
ghost use Rattle.text.specs.Weight.{most_places, million};
ghost use Rattle.write.specs.Put.{written, put_at};
ghost use Rattle.write.specs.Millionths.{places_text, millionths_text};

use crate::bytes::put;
use crate::numbers::{digit, put_number};

// `Weight.million`: how many one whole has.
const MILLION: usize = 1000000;

// What a digit is worth at each place behind the point, in millionths.
const UNITS: [usize; 6] = [100000, 10000, 1000, 100, 10, 1];

// `Bytes.point_mark`.
const POINT: u8 = 46;

// The digits behind the point, without zeros at the end.
fn put_places(out: &mut [u8], at: usize, rest: usize) -> usize
    requires { rest < million }
    ensures { written out.new result ≡ put_at out.old at (places_text most_places rest) }
{
    let mut next = at;
    let mut left = rest;
    for unit in UNITS {
        if left == 0 {
            return next;
        }
        next = put(out, next, digit(left / unit));
        left = left % unit;
    }
    next
}

// So many millionths, as the shortest plain decimal.
pub fn put_millionths(out: &mut [u8], at: usize, n: usize) -> usize
    ensures { written out.new result ≡ put_at out.old at (millionths_text n) }
{
    let next = put_number(out, at, n / MILLION);
    let rest = n % MILLION;
    if rest == 0 {
        return next;
    }
    let first = put(out, next, POINT);
    put_places(out, first, rest)
}
