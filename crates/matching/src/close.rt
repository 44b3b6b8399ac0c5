// Whether a decimal is within a ten-thousandth of an exact fraction: digit by digit, no rounding, nothing above 64 bits.
ghost use Rattle.std.specs.Prelude.{◌≡◌, ◌&&◌, ◌*◌, ◌^◌, ◌<◌, min, leb, eqb};
ghost use Rattle.matching.specs.Close.{is_close};

use text::decimal::Decimal;

// Above every a * 10001, so that a larger number need not be told apart.
const CAP: u64 = 1_000_000_000_000_000_000;

// d * 10^k, or the cap where it is more.
fn scaled_up(d: u64, k: u32) -> u64
    ensures { result ≡ min (d * 10 ^ k) (10 ^ 18) }
{
    d.saturating_mul(10u64.saturating_pow(k)).min(CAP)
}

// Whether d * n is from low * 10^k to high * 10^k. Its last k digits are dropped one by one: (rest * n + part) * 10^j is d * n without what
// was dropped.
fn enclosed(low: u64, high: u64, n: u64, d: u64, k: u32) -> bool
    requires { (0 < n) × (n < 2 ^ 50) × (high < 2 ^ 50) }
    ensures { result ≡ (leb (low * 10 ^ k) (d * n) && leb (d * n) (high * 10 ^ k)) }
{
    let mut rest = d;
    let mut part: u64 = 0;
    let mut exact = true;
    for _ in 0..k {
        let sum = part + rest % 10 * n;
        exact = exact && sum % 10 == 0;
        part = sum / 10;
        rest /= 10;
    }
    if high / n < rest {
        return false;
    }
    let product = rest * n + part;
    low <= product && (product < high || product == high && exact)
}

// Whether the decimal s is within a ten-thousandth of a / b. A coefficient's terms are below 65,536 squared, so they are u32.
pub fn close(a: u32, b: u32, s: Decimal) -> bool
    ensures { result ≡ is_close a b s }
{
    if b == 0 {
        return a == 0;
    }
    let n = u64::from(b) * 10000;
    let low = u64::from(a) * 9999;
    let high = u64::from(a) * 10001;
    let up = u32::from(s.up);
    let down = u32::from(s.down);
    if up <= down {
        enclosed(low, high, n, s.digits, down - up)
    } else {
        enclosed(low, high, n, scaled_up(s.digits, up - down), 0)
    }
}
