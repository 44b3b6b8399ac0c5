// What is said of a claim that was read whole.

// It matches; it is incomplete, or a mismatch, at a line, counted from 1.
#[derive(Clone, Copy, Debug, PartialEq, Eq)]
pub enum Verdict {
    Match,
    Incomplete(usize),
    Mismatch(usize),
}
