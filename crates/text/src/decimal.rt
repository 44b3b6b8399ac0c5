// The decimal of a coefficient claim.
ghost use Rattle.std.specs.Prelude.{◌≡◌, ◌+◌, ◌≤◌, length};
ghost use Rattle.text.specs.Decimal.{past_point, whole_is_good, power_at, parts_of, decimal_of};
ghost use Rattle.text.specs.Stop.{digit_at, two_digits, power_stop, parts_stop, decimal_stop, power_word, scaled_by};
ghost use Rattle.text.specs.Scan.{scanned, decimal_says};

use crate::count::{MINUS, PLUS, ZERO, digits, has};

// What stands before the digits of a fraction.
pub const POINT: u8 = 46;

// What stands before the sign and the two digits of a power.
const POWER: u8 = 101;

// How many digits may stand before the `e`.
pub const DIGITS: usize = 17;

// digits * 10^up / 10^down: nothing is rounded.
#[derive(Clone, Copy, Debug, PartialEq, Eq)]
pub struct Decimal {
    pub digits: u64,
    pub up: u8,
    pub down: u16,
}

// The exponent that stands after the digits.
// Stays: it multiplies or divides, by a number either way, so neither kind is an absence or a failure.
#[derive(Clone, Copy)]
enum Power {
    Up(u8),
    Down(u8),
}

// What the digit at a place is worth, if one stands there.
fn digit_at(s: &[u8], at: usize) -> Option<u8>
    ensures { result ≡ digit_at s.now at }
{
    match s.get(at) {
        Some(b) if b.is_ascii_digit() => Some(*b - ZERO),
        _ => None,
    }
}

// Where the digits after the point start; `at` itself where there is no point.
fn past_point(s: &[u8], at: usize) -> usize
    ensures { result ≡ past_point s.now at }
{
    if has(s, at, POINT) { at + 1 } else { at }
}

// One digit, or more with no leading zero, before the point.
#[tactic(auto, unfolding(crate::specs::Decimal::whole_is_good))]
fn whole_is_good(s: &[u8], w: usize) -> bool
    requires { w ≤ length s.now }
    ensures { result ≡ whole_is_good s.now w }
{
    w == 1 || w > 1 && s[0] > ZERO
}

// What two digits up to the end are worth; or the place at which they break off.
fn two_digits(s: &[u8], at: usize) -> Result<u8, usize>
    requires { at ≤ length s.now }
    ensures { result ≡ two_digits s.now at }
{
    let Some(x) = digit_at(s, at) else {
        return Err(at);
    };
    let Some(y) = digit_at(s, at + 1) else {
        return Err(at + 1);
    };
    if s.len() != at + 2 {
        return Err(at + 2);
    }
    Ok(x * 10 + y)
}

// What stands after the digits, up to the end: nothing, or `e`, a sign and two digits; or the place at which that breaks off.
fn power_at(s: &[u8], at: usize) -> Result<Power, usize>
    requires { at ≤ length s.now }
    ensures { result ≡ power_word (power_at s.now at) (power_stop s.now at) }
{
    if s.len() == at {
        return Ok(Power::Up(0));
    }
    if !has(s, at, POWER) {
        return Err(at);
    }
    if has(s, at + 1, PLUS) {
        return Ok(Power::Up(two_digits(s, at + 2)?));
    }
    if has(s, at + 1, MINUS) {
        return Ok(Power::Down(two_digits(s, at + 2)?));
    }
    Err(at + 1)
}

// A number with f digits after the point, and its power.
fn with_power(n: u64, f: u8, p: Power) -> Decimal
    ensures { result ≡ scaled_by n f p }
{
    match p {
        Power::Up(k) => Decimal {
            digits: n,
            up: k,
            down: f as u16,
        },
        Power::Down(k) => Decimal {
            digits: n,
            up: 0,
            down: f as u16 + k as u16,
        },
    }
}

// w digits before the point and f after it, from p on, that make the number n.
fn parts(s: &[u8], w: usize, p: usize, f: usize, n: u64) -> Result<Decimal, usize>
    requires { (w ≤ p) × (p + f ≤ length s.now) }
    ensures { decimal_says (length s.now) result
        ≡ scanned (parts_of s.now w p f n) (parts_stop s.now w p f) }
{
    if w == 0 {
        return Err(0);
    }
    // a digit after a leading zero
    if !whole_is_good(s, w) {
        return Err(1);
    }
    // one digit too many, or a point that only such a digit could follow
    if DIGITS < p {
        return Err(DIGITS);
    }
    // a point with no digit after it
    if w + f < p {
        return Err(p);
    }
    if DIGITS < w + f {
        return Err(p + (DIGITS - w));
    }
    Ok(with_power(n, f as u8, power_at(s, p + f)?))
}

// What the bytes of a whole decimal say; or the place of the first byte at which no decimal could go on.
pub(crate) fn decimal_of(s: &[u8]) -> Result<Decimal, usize>
    ensures { decimal_says (length s.now) result
        ≡ scanned (decimal_of s.now) (decimal_stop s.now) }
{
    let whole = digits(s, 0, 0);
    let p = past_point(s, whole.next);
    let all = digits(s, p, whole.value);
    parts(s, whole.next, p, all.next - p, all.value)
}
