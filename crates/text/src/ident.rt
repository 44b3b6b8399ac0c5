// An identifier at a place, and one that a byte must follow.
ghost use Rattle.std.specs.Prelude.{◌≡◌};
ghost use Rattle.text.specs.Scan.{count_at, ranged_at, signed_at, ident_at, field_at, ranged_says, scan_says};

use crate::count::{MINUS, Scan, ZERO, count, has};

// A number with its sign, that ends before the place `next`; no value where it is outside the range of i64.
// Stays: `negative` as a flag, here and below. It is the sign of the number, and no step to run.
fn ranged(n: u64, next: usize, negative: bool) -> Scan<Option<i64>>
    ensures { ranged_says result ≡ ranged_at negative n next }
{
    let value = if negative {
        0i64.checked_sub_unsigned(n)
    } else {
        i64::try_from(n).ok()
    };
    Scan { value, next }
}

// The count at a place with the sign before it.
fn signed(s: &[u8], at: usize, negative: bool) -> Result<Scan<Option<i64>>, usize>
    ensures { scan_says result ≡ signed_at negative (count_at s.now at) }
{
    let x = count(s, at)?;
    Ok(ranged(x.value, x.next, negative))
}

// The identifier at a place.
fn ident(s: &[u8], at: usize) -> Result<Scan<Option<i64>>, usize>
    ensures { scan_says result ≡ ident_at s.now at }
{
    if has(s, at, MINUS) {
        let p = at + 1;
        if has(s, p, ZERO) {
            return Err(p);
        }
        return signed(s, p, true);
    }
    signed(s, at, false)
}

// The identifier at a place, which the byte `c` must follow: with the place past `c`, and no value where it is outside the range of i64;
// or the place of the byte at which it breaks off.
pub fn field(s: &[u8], at: usize, c: u8) -> Result<Scan<Option<i64>>, usize>
    ensures { scan_says result ≡ field_at s.now at c }
{
    let x = ident(s, at)?;
    if !has(s, x.next, c) {
        return Err(x.next);
    }
    Ok(Scan {
        value: x.value,
        next: x.next + 1,
    })
}
