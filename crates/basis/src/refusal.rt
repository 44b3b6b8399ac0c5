// Why a call was refused, and where: `number` as the rules number the refusals, `file` 1 vertex, 2 edge, 3 claim, 4 sheet, 0 none,
// `line` counted from 1, or 0 where no line applies, `column` counted from 1 in the line, or 0: only refusal 2 of a vertex, edge or claim
// line has one.
ghost use Rattle.std.specs.Prelude.{◌≡◌};
ghost use Rattle.basis.specs.Refusal.{at_column, at, plain};

use std::fmt;

// Stays: numbers and no enum. The host's calls and the desk's lines give them as numbers, and `Refusal::plain`, `at`, `at_column` and
// `listing::put_refused` answer on every number.
pub const TOO_MANY: usize = 1;

pub const BAD_FORM: usize = 2;

pub const OUT_OF_RANGE: usize = 3;

pub const NOT_ABOVE: usize = 4;

pub const SELF_EDGE: usize = 5;

pub const LARGER_FIRST: usize = 6;

pub const UNKNOWN_VERTEX: usize = 7;

pub const NO_ROOM: usize = 8;

pub const UNSOUND: usize = 9;

pub const NOT_THERE: usize = 10;

pub const BAD_ROUNDS: usize = 11;

pub const UNKNOWN_NUMBER: usize = 12;

pub const TOO_HEAVY: usize = 13;

pub const UNWEIGHTED: usize = 14;

pub const VERTEX_FILE: usize = 1;

pub const EDGE_FILE: usize = 2;

pub const CLAIM_FILE: usize = 3;

pub const SHEET_FILE: usize = 4;

#[derive(Clone, Copy, Debug, PartialEq, Eq)]
pub struct Refusal {
    pub number: usize,
    pub file: usize,
    pub line: usize,
    pub column: usize,
}

impl Refusal {
    // A refusal that meets no line.
    pub fn plain(number: usize) -> Self
        ensures { result ≡ plain number }
    {
        Refusal {
            number,
            file: 0,
            line: 0,
            column: 0,
        }
    }

    // A refusal at a line of a file.
    pub fn at(number: usize, file: usize, line: usize) -> Self
        ensures { result ≡ at number file line }
    {
        Refusal {
            number,
            file,
            line,
            column: 0,
        }
    }

    // A refusal at a column of a line of a file.
    pub fn at_column(number: usize, file: usize, line: usize, column: usize) -> Self
        ensures { result ≡ at_column number file line column }
    {
        Refusal {
            number,
            file,
            line,
            column,
        }
    }
}

// The word and the number, the file and the line, a space between.
impl fmt::Display for Refusal {
    fn fmt<W: fmt::Write>(&self, f: &mut fmt::Formatter<W>) -> fmt::Result {
        write!(f, "refused {} {} {}", self.number, self.file, self.line)
    }
}
