// A refused line.
ghost use Rattle.std.specs.Prelude.{◌≡◌};
ghost use Rattle.write.specs.Put.{written, put_at};
ghost use Rattle.listing.specs.Listing.{spaced_text, numbers_text, refused_text};

use basis::Refusal;
use text::count::{LF, SPACE};
use write::{put, put_bytes, put_number};

// A space and a number.
pub fn put_spaced(out: &mut [u8], at: usize, n: usize) -> usize
    ensures { written out.new result ≡ put_at out.old at (spaced_text n) }
{
    let next = put(out, at, SPACE);
    put_number(out, next, n)
}

// The four numbers, each after a space.
fn put_numbers(out: &mut [u8], at: usize, x: Refusal) -> usize
    ensures { written out.new result ≡ put_at out.old at (numbers_text x) }
{
    let a = put_spaced(out, at, x.number);
    let b = put_spaced(out, a, x.file);
    let c = put_spaced(out, b, x.line);
    put_spaced(out, c, x.column)
}

// `refused` and the four numbers.
pub fn put_refused(out: &mut [u8], at: usize, x: Refusal) -> usize
    ensures { written out.new result ≡ put_at out.old at (refused_text x) }
{
    let a = put_bytes(out, at, b"refused");
    let b = put_numbers(out, a, x);
    put(out, b, LF)
}
