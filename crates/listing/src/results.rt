// What a job prints: its head, and then identifier and value for each vertex.
ghost use Rattle.std.specs.Prelude.{◌≡◌};
ghost use Rattle.write.specs.Put.{written, put_at};
ghost use Rattle.listing.specs.Listing.{head_text, named_text, fraction_text, pair_text, ratio_text, pair_lines, ratio_lines};

use text::count::{LF, SPACE};
use write::{put, put_bytes, put_number, put_signed};

// What stands between the two numbers of a coefficient.
pub const SLASH: u8 = 47;

// A job's line, which has its LF, and the count line.
pub fn put_head(out: &mut [u8], at: usize, line: &[u8], n: usize) -> usize
    ensures { written out.new result ≡ put_at out.old at (head_text line.now n) }
{
    let a = put_bytes(out, at, line);
    let b = put_number(out, a, n);
    put(out, b, LF)
}

// An identifier and a space.
fn put_named(out: &mut [u8], at: usize, id: i64) -> usize
    ensures { written out.new result ≡ put_at out.old at (named_text id) }
{
    let next = put_signed(out, at, id);
    put(out, next, SPACE)
}

// A coefficient.
fn put_fraction(out: &mut [u8], at: usize, numerator: usize, denominator: usize) -> usize
    ensures { written out.new result ≡ put_at out.old at (fraction_text numerator denominator) }
{
    let a = put_number(out, at, numerator);
    let b = put(out, a, SLASH);
    put_number(out, b, denominator)
}

// A result line: an identifier and a signed number.
pub fn put_pair(out: &mut [u8], at: usize, id: i64, value: i64) -> usize
    ensures { written out.new result ≡ put_at out.old at (pair_text id value) }
{
    let a = put_named(out, at, id);
    let b = put_signed(out, a, value);
    put(out, b, LF)
}

// A result line: an identifier and a fraction.
pub fn put_ratio(out: &mut [u8], at: usize, id: i64, numerator: usize, denominator: usize) -> usize
    ensures { written out.new result ≡ put_at out.old at (ratio_text id numerator denominator) }
{
    let a = put_named(out, at, id);
    let b = put_fraction(out, a, numerator, denominator);
    put(out, b, LF)
}

// The result lines of a list of identifiers and one of values, as far as both go.
pub fn put_pairs(out: &mut [u8], at: usize, ids: &[i64], values: &[i64]) -> usize
    ensures { written out.new result
        ≡ put_at out.old at (pair_lines ids.now values.now) }
{
    let mut next = at;
    for (id, value) in ids.iter().zip(values) {
        next = put_pair(out, next, *id, *value);
    }
    next
}

// The result lines of a list of identifiers and two of numerators and denominators, as far as all go.
pub fn put_ratios(
    out: &mut [u8],
    at: usize,
    ids: &[i64],
    numerators: &[usize],
    denominators: &[usize],
) -> usize
    ensures { written out.new result
        ≡ put_at out.old at (ratio_lines ids.now numerators.now denominators.now) }
{
    let mut next = at;
    for ((id, numerator), denominator) in ids.iter().zip(numerators).zip(denominators) {
        next = put_ratio(out, next, *id, *numerator, *denominator);
    }
    next
}
