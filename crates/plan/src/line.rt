// The lines of a sheet: their numbers, their faults, and a word at a place.
ghost use Rattle.std.specs.Prelude.{◌≡◌, drop};
ghost use Rattle.plan.specs.Lines.{line_number, sheet_fault, begins};

use basis::Refusal;
use basis::refusal::SHEET_FILE;
use text::count::LF;

// The number of the line at a place, counted from 1.
pub fn line_number(s: &[u8], at: usize) -> usize
    ensures { result ≡ line_number s.now at }
{
    1 + s[..at.min(s.len())].iter().filter(|b| **b == LF).count()
}

// A refusal at the line of a place.
pub fn sheet_fault(s: &[u8], at: usize, number: usize) -> Refusal
    ensures { result ≡ sheet_fault s.now at number }
{
    Refusal::at(number, SHEET_FILE, line_number(s, at))
}

// Do the bytes of a word stand at a place?
pub fn begins_at(s: &[u8], at: usize, word: &[u8]) -> bool
    ensures { result ≡ begins word.now (drop at s.now) }
{
    s[at.min(s.len())..].starts_with(word)
}
