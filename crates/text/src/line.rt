// The lines of vertex, edge and claim files, read over a cursor.
ghost use Rattle.std.specs.Prelude.{◌≡◌, ◌≤◌, length, Some};
ghost use Rattle.text.specs.Line.{vertex_line, edge_line, claim_line, coefficient_line};
ghost use Rattle.text.specs.Line.{reader_says, vertex_says, edge_says, coefficient_says};
ghost use Rattle.text.specs.Weighed.{has_weights};
ghost use Rattle.text.specs.Bytes.{lf};
ghost use Rattle.text.specs.Scan.{scan_says, read_says, field_at, rest_at, two_at, column_at, Behind, line_of};

use crate::count::{LF, SPACE, Scan, has, line_end};
use crate::decimal::{Decimal, decimal_of};
use crate::ident::field;
use basis::refusal::{BAD_FORM, OUT_OF_RANGE};

// A reader's place in a file.
#[derive(Clone, Copy, Debug, PartialEq, Eq)]
pub struct Cursor {
    pub at: usize,
}

// Why a line is refused: by its number, with the column, from 1, at which its form breaks off, or 0.
// Stays: both are plain numbers, as `Line.line_says` fixes them, and as a Refusal carries them.
#[derive(Clone, Copy, Debug, PartialEq, Eq)]
pub struct Fault {
    pub number: usize,
    pub column: usize,
}

// The decimal from a place to the end of its line, with the place past that line; or the place of the byte at which it breaks off.
pub(crate) fn decimal_rest(s: &[u8], at: usize) -> Result<Scan<Decimal>, usize>
    requires { at ≤ length s.now }
    ensures { read_says result ≡ rest_at s.now at }
{
    let end = line_end(s, at);
    match decimal_of(&s[at..end]) {
        Err(p) => Err(at + p),
        Ok(value) => {
            if has(s, end, LF) {
                return Ok(Scan {
                    value,
                    next: end + 1,
                });
            }
            Err(end)
        }
    }
}

// The column of the byte at p in a line that began at `at`, counted from 1.
fn column(at: usize, p: usize) -> usize
    requires { Behind at p }
    ensures { result ≡ column_at at p }
{
    p - at + 1
}

// The two identifiers of an edge line at a place, with a space between and LF behind.
fn edge_at(s: &[u8], at: usize) -> Result<Scan<Option<(i64, i64)>>, usize>
    ensures { scan_says result ≡ two_at (λ s p. field_at s p lf) s.now at }
{
    let x = field(s, at, SPACE)?;
    let y = field(s, x.next, LF)?;
    Ok(Scan {
        value: x.value.zip(y.value),
        next: y.next,
    })
}

// The identifier and the decimal of a coefficient line at a place.
fn coefficient_at(s: &[u8], at: usize) -> Result<Scan<Option<(i64, Decimal)>>, usize>
    ensures { scan_says result ≡ two_at rest_at s.now at }
{
    let x = field(s, at, SPACE)?;
    let y = decimal_rest(s, x.next)?;
    Ok(Scan {
        value: x.value.zip(Some(y.value)),
        next: y.next,
    })
}

impl Cursor {
    // The line at this place, of what was scanned of it, and the cursor past it; or its fault, and the cursor as it was.
    pub(crate) fn line<T>(self, scan: Result<Scan<Option<T>>, usize>) -> (Result<T, Fault>, Cursor)
        requires { Behind self.at (scan_says scan).next }
        ensures { reader_says result.1 (Some result.0) ≡ line_of self.at (scan_says scan) }
    {
        match scan {
            Err(p) => {
                let column = column(self.at, p);
                (
                    Err(Fault {
                        number: BAD_FORM,
                        column,
                    }),
                    self,
                )
            }
            Ok(Scan { value, next }) => match value {
                None => (
                    Err(Fault {
                        number: OUT_OF_RANGE,
                        column: 0,
                    }),
                    self,
                ),
                Some(v) => (Ok(v), Cursor { at: next }),
            },
        }
    }

    // The vertex line at this place.
    pub fn vertex(self, s: &[u8]) -> (Option<Result<i64, Fault>>, Cursor)
        ensures { vertex_says result.1 result.0 ≡ vertex_line s.now self.at }
    {
        if s.len() <= self.at {
            return (None, self);
        }
        let (line, next) = self.line(field(s, self.at, LF));
        (Some(line), next)
    }

    // The edge line at this place.
    pub fn edge(self, s: &[u8]) -> (Option<Result<(i64, i64), Fault>>, Cursor)
        ensures { edge_says result.1 result.0 ≡ edge_line s.now self.at }
    {
        if s.len() <= self.at {
            return (None, self);
        }
        let (line, next) = self.line(edge_at(s, self.at));
        (Some(line), next)
    }

    // The claim line at this place, for BFS, WCC and CDLP: it has an edge line's form.
    pub fn claim(self, s: &[u8]) -> (Option<Result<(i64, i64), Fault>>, Cursor)
        ensures { edge_says result.1 result.0 ≡ claim_line s.now self.at }
    {
        self.edge(s)
    }

    // The claim line at this place, for LCC.
    pub fn coefficient_claim(self, s: &[u8]) -> (Option<Result<(i64, Decimal), Fault>>, Cursor)
        ensures { coefficient_says result.1 result.0 ≡ coefficient_line s.now self.at }
    {
        if s.len() <= self.at {
            return (None, self);
        }
        let (line, next) = self.line(coefficient_at(s, self.at));
        (Some(line), next)
    }
}

// Whether an edge file has weights: its first line says so.
pub fn has_weights(s: &[u8]) -> bool
    ensures { result ≡ has_weights s.now }
{
    let (line, _) = Cursor { at: 0 }.edge(s);
    match line {
        None => false,
        Some(read) => match read {
            Err(fault) => fault.number == BAD_FORM,
            Ok(_) => false,
        },
    }
}
