// An answer as one number.
ghost use Rattle.std.specs.Prelude.{◌≡◌, ◌<◌, ℕ};
ghost use Rattle.basis.specs.Refusal.{said};
ghost use Rattle.book.specs.Says.{as_joining, as_end};
ghost use Rattle.trace.specs.Code.{placed, coded, host_code, wide, narrow, Small, Readable, nothing};
ghost use Rattle.matching.specs.Verdict.{says};
ghost use Rattle.trace.specs.Verdict.{as_refusal};
ghost use Rattle.trace.specs.Load.{load_value};
ghost use Rattle.trace.specs.Book.{join_value, head_value, same_value, reading_value};

use basis::Refusal;
use basis::refusal::CLAIM_FILE;
use book::{Head, Joining};
use graph::Size;
use matching::Verdict;

const NUMBER: u64 = 1000000000000000;

const FILE: u64 = 100000000000000;

const MATCH: usize = 0;

const INCOMPLETE: usize = 20;

const MISMATCH: usize = 21;

// A refusal as one number.
pub(crate) fn refusal_code(r: Refusal) -> u64
    requires { Small wide r }
    ensures { result ≡ placed r }
{
    r.number as u64 * NUMBER + r.file as u64 * FILE + r.line as u64
}

// The host call's number of a verdict or refusal, in which lines have less room.
// Stays: beside `refusal_code`, since each is one line and a constant for the room would need a bound of its own.
pub(crate) fn host_code(r: Refusal) -> u64
    requires { Small narrow r }
    ensures { result ≡ host_code r }
{
    r.number as u64 * 1000000 + r.file as u64 * 100000 + r.line as u64
}

// A verdict's three numbers as those of a refusal, or a refusal as it is.
pub(crate) fn as_refusal(judged: Result<Verdict, Refusal>) -> Refusal
    ensures { result ≡ as_refusal (says judged) }
{
    match judged {
        Ok(Verdict::Match) => Refusal::at(MATCH, CLAIM_FILE, 0),
        Ok(Verdict::Incomplete(line)) => Refusal::at(INCOMPLETE, CLAIM_FILE, line),
        Ok(Verdict::Mismatch(line)) => Refusal::at(MISMATCH, CLAIM_FILE, line),
        Err(r) => r,
    }
}

// A value that a call gives, as a number for its host.
pub(crate) trait Coded {
    ghost value: { Self → ℕ };

    fn number(self) -> u64
        requires { value self < wide }
        ensures { result ≡ value self };
}

// No value beside the areas: 0.
impl Coded for () {
    ghost value = { nothing };

    fn number(self) -> u64 {
        0
    }
}

// A size, a count or a step limit.
impl Coded for usize {
    ghost value = { reading_value };

    fn number(self) -> u64 {
        self as u64
    }
}

// 1 where two vertices are in one group.
impl Coded for bool {
    ghost value = { same_value };

    fn number(self) -> u64 {
        u64::from(self)
    }
}

// 1 where a join merged two groups, 0 where it found one.
impl Coded for Joining {
    ghost value = { λ j. join_value (as_joining j) };

    fn number(self) -> u64 {
        match self {
            Joining::Merged => 1,
            Joining::Already => 0,
        }
    }
}

// The head and, in the last two digits, the moves.
impl Coded for Head {
    ghost value = { λ h. head_value (as_end h) };

    fn number(self) -> u64 {
        self.head as u64 * 100 + self.moves as u64
    }
}

// Vertices and, in the last seven digits, arcs.
impl Coded for Size {
    ghost value = { load_value };

    fn number(self) -> u64 {
        self.vertices as u64 * 10000000 + self.arcs as u64
    }
}

// What a call says, as one number: its value's, or its refusal's.
pub(crate) fn code<T: Coded + Drop>(answer: Result<T, Refusal>) -> u64
    requires { Readable wide (said answer) T.value }
    ensures { result ≡ coded (said answer) T.value }
{
    match answer {
        Ok(value) => value.number(),
        Err(r) => refusal_code(r),
    }
}
