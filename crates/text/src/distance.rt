// The claim line of a distance: a decimal, or `infinity`.
ghost use Rattle.std.specs.Prelude.{◌≡◌, true, ◌≤◌, length, drop};
ghost use Rattle.text.specs.Scan.{has_at, scan_says, read_says, two_at};
ghost use Rattle.text.specs.Distance.{shared_front, distance_at, distance_says, distance_line};

use crate::count::{LF, SPACE, Scan, has};
use crate::decimal::Decimal;
use crate::ident::field;
use crate::line::{Cursor, Fault, decimal_rest};

// The letter that `infinity` begins with.
const LETTER: u8 = 105;

// How far a vertex is said to be: not reachable, or so far.
// Stays: `infinity` is a value that a claim gives, and no absence of one, so this is not an Option.
#[derive(Clone, Copy, Debug, PartialEq, Eq)]
pub enum Distance {
    Infinity,
    Finite(Decimal),
}

// How many bytes of a word stand in order from a place on.
fn shared_front(s: &[u8], at: usize, word: &[u8]) -> usize
    ensures { result ≡ shared_front word.now (drop at s.now) }
{
    for i in 0..word.len() {
        if !has(s, at + i, word[i]) {
            return i;
        }
    }
    word.len()
}

// `infinity` from a place to the end of its line, if its first letter stands there.
fn infinity_rest(s: &[u8], at: usize) -> Result<Scan<Distance>, usize>
    requires { has_at s.now at 105 ≡ true }
    ensures { read_says result ≡ distance_at s.now at }
{
    let n = shared_front(s, at, b"infinity");
    let end = at + n;
    if n < 8 {
        return Err(end);
    }
    if !has(s, end, LF) {
        return Err(end);
    }
    Ok(Scan {
        value: Distance::Infinity,
        next: end + 1,
    })
}

// The distance from a place to the end of its line, with the place past that line; or the place of the byte at which it breaks off.
fn distance_rest(s: &[u8], at: usize) -> Result<Scan<Distance>, usize>
    requires { at ≤ length s.now }
    ensures { read_says result ≡ distance_at s.now at }
{
    if has(s, at, LETTER) {
        return infinity_rest(s, at);
    }
    let x = decimal_rest(s, at)?;
    Ok(Scan {
        value: Distance::Finite(x.value),
        next: x.next,
    })
}

// The identifier and the distance of a line at a place.
fn reached_at(s: &[u8], at: usize) -> Result<Scan<Option<(i64, Distance)>>, usize>
    ensures { scan_says result ≡ two_at distance_at s.now at }
{
    let x = field(s, at, SPACE)?;
    let y = distance_rest(s, x.next)?;
    Ok(Scan {
        value: x.value.zip(Some(y.value)),
        next: y.next,
    })
}

impl Cursor {
    // The claim line at this place, for SSSP.
    pub fn distance_claim(self, s: &[u8]) -> (Option<Result<(i64, Distance), Fault>>, Cursor)
        ensures { distance_says result.1 result.0 ≡ distance_line s.now self.at }
    {
        if s.len() <= self.at {
            return (None, self);
        }
        let (line, next) = self.line(reached_at(s, self.at));
        (Some(line), next)
    }
}
