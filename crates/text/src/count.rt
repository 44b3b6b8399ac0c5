// A byte at a place, a run of digits, and a count.
ghost use Rattle.std.specs.Prelude.{◌≡◌, ◌+◌, ◌≤◌, length, drop, ◌==◌};
ghost use Rattle.std.specs.List.{position};
ghost use Rattle.text.specs.Word.{with_digit};
ghost use Rattle.text.specs.Bytes.{lf, zero_digit, nine_digit};
ghost use Rattle.text.specs.Line.{up_to};
ghost use Rattle.text.specs.Scan.{cut_number, saturated, has_at, run_at, count_at, count_says};

// What ends a line.
pub const LF: u8 = 10;

// What stands between the two words of a line.
pub const SPACE: u8 = 32;

// The first digit.
pub const ZERO: u8 = 48;

// The first digit that may lead a number.
const ONE: u8 = 49;

// The last digit.
pub const NINE: u8 = 57;

// The sign of a number below zero, and of a power that divides.
pub const MINUS: u8 = 45;

// The sign of a power that multiplies.
pub const PLUS: u8 = 43;

// 2^63 + 1: a number is carried as itself, or as this where it is larger.
pub const CAP: u64 = 9223372036854775809;

// What was read, and the place of the first byte after it.
#[derive(Clone, Copy, Debug, PartialEq, Eq)]
pub struct Scan<T> {
    pub value: T,
    pub next: usize,
}

// Whether the byte `c` stands at a place.
pub fn has(s: &[u8], at: usize, c: u8) -> bool
    ensures { result ≡ has_at s.now at c }
{
    s.get(at) == Some(&c)
}

// How far the first LF is, if there is one.
fn first_lf(s: &[u8]) -> Option<usize>
    ensures { result ≡ position (λ b. b == lf) s.now }
{
    s.iter().position(|b| *b == LF)
}

// The place of the first LF at or after a place, or the end.
pub fn line_end(s: &[u8], from: usize) -> usize
    ensures { result ≡ from + length (up_to lf (drop from s.now)) }
{
    match s.get(from..) {
        Some(rest) => from + first_lf(rest).unwrap_or(rest.len()),
        None => from,
    }
}

// A number as it is carried.
fn cut(n: u64) -> u64
    ensures { result ≡ cut_number n }
{
    n.min(CAP)
}

// One digit more on a number that is cut down.
fn step(n: u64, b: u8) -> u64
    requires { (zero_digit ≤ b) × (b ≤ nine_digit) }
    ensures { result ≡ cut_number (with_digit n b) }
{
    if n <= CAP / 10 {
        n * 10 + (b - ZERO) as u64
    } else {
        CAP
    }
}

// The digits at a place, written after those of `start`.
pub(crate) fn digits(s: &[u8], from: usize, start: u64) -> Scan<u64>
    ensures { result ≡ run_at s.now from start }
{
    let mut value = cut(start);
    for i in from..s.len() {
        if !s[i].is_ascii_digit() {
            return Scan { value, next: i };
        }
        value = step(value, s[i]);
    }
    Scan {
        value,
        next: from.max(s.len()),
    }
}

// The count at a place, `0` or a digit 1 to 9 and more digits; or the place of the byte at which it breaks off.
pub fn count(s: &[u8], at: usize) -> Result<Scan<u64>, usize>
    ensures { count_says result ≡ saturated (count_at s.now at) }
{
    match s.get(at) {
        Some(&ZERO) => Ok(Scan {
            value: 0,
            next: at + 1,
        }),
        Some(b) if b.is_ascii_digit() => Ok(digits(s, at, 0)),
        _ => Err(at),
    }
}
