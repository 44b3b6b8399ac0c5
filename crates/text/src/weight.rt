// The weight that an edge line may carry, in whole millionths.
ghost use Rattle.std.specs.Prelude.{◌≡◌, ◌+◌, ◌-◌, ◌^◌, ◌≤◌, min, length};
ghost use Rattle.basis.specs.Limits.{most_weight};
ghost use Rattle.text.specs.Weight.{most_places, with_fraction, weight_of, weight_stop};
ghost use Rattle.text.specs.Weighed.{weight_form};
ghost use Rattle.text.specs.Scan.{scanned, read_says, behind_at, last_at};

use crate::count::{LF, Scan, count, digits, has, line_end};
use crate::decimal::POINT;

// How many digits may stand after the point.
const PLACES: usize = 6;

// How many millionths one whole has.
const MILLION: u64 = 1000000;

// The least number of millionths above 100000 wholes: a weight is carried as itself, or as this where it is larger.
const ABOVE: u64 = 100000000001;

// What the last of so many digits after the point is worth, in millionths.
fn worth(places: usize) -> u64
    ensures { result ≡ 10 ^ (most_places - places) }
{
    10u64.pow(PLACES.saturating_sub(places) as u32)
}

// n wholes and the number f of so many digits after the point, in millionths as they are carried.
fn millionths(n: u64, f: u64, places: usize) -> u64
    requires { f ≤ 999999 }
    ensures { result ≡ min (with_fraction n f places) (most_weight + 1) }
{
    n.saturating_mul(MILLION)
        .saturating_add(f * worth(places))
        .min(ABOVE)
}

// What stands from p on behind n wholes, up to the end: nothing, or a point and one to six digits.
fn behind(s: &[u8], n: u64, p: usize) -> Result<Scan<u64>, usize>
    requires { p ≤ length s.now }
    ensures { read_says result ≡ behind_at s.now n p }
{
    if p == s.len() {
        return Ok(Scan {
            value: millionths(n, 0, 0),
            next: p,
        });
    }
    if s[p] != POINT {
        return Err(p);
    }
    let run = digits(s, p + 1, 0);
    let end = run.next;
    let places = end - (p + 1);
    // no digit after the point
    if places == 0 {
        return Err(end);
    }
    // one digit too many
    if PLACES < places {
        return Err(p + 1 + PLACES);
    }
    if end < s.len() {
        return Err(end);
    }
    Ok(Scan {
        value: millionths(n, run.value, places),
        next: end,
    })
}

// What the bytes of a whole weight say with their end, or where they break off.
fn weight_of(s: &[u8]) -> Result<Scan<u64>, usize>
    ensures { read_says result ≡ scanned (weight_of s.now) (weight_stop s.now) }
{
    let x = count(s, 0)?;
    behind(s, x.value, x.next)
}

// The weight from a place to the end of its line, with the place past that line; or the place of the byte at which it breaks off.
// Stays: `decimal_rest` is like it, but its reader has no place beside a good word; one function over both readers would need a clause on
// the places of a closure's answers.
pub(crate) fn weight_rest(s: &[u8], at: usize) -> Result<Scan<u64>, usize>
    requires { at ≤ length s.now }
    ensures { read_says result ≡ last_at weight_form s.now at }
{
    let end = line_end(s, at);
    match weight_of(&s[at..end]) {
        Err(p) => Err(at + p),
        Ok(x) => {
            let q = at + x.next;
            if has(s, q, LF) {
                return Ok(Scan {
                    value: x.value,
                    next: q + 1,
                });
            }
            Err(q)
        }
    }
}
