// Layer graph. The two lists of a graph, each text read once: what a line names is stored as it is read.
#![tactic(auto)]

pub mod edges;
pub mod vertices;

ghost use Rattle.std.specs.Prelude.{◌≡◌, ◌-◌, ◌<◌, ◌^◌, set};
ghost use Rattle.basis.specs.Refusal.{said};
ghost use Rattle.lists.specs.Steps.{counted};

use basis::Refusal;
use basis::refusal::TOO_MANY;
use text::line::{Cursor, Fault};

// A reader of a file's lines: its place, how many lines it passed, and what the last of them says.
#[derive(Clone, Copy)]
pub(crate) struct Lines<T> {
    pub(crate) at: Cursor,
    pub(crate) passed: usize,
    pub(crate) last: Option<T>,
}

// What a line says after k others of a file: too many lines come before a fault of its form or range.
pub(crate) fn counted<T: Copy>(
    file: usize,
    most: usize,
    k: usize,
    line: Result<T, Fault>,
) -> Result<T, Refusal>
    requires { k < 2 ^ 64 - 1 }
    ensures { said result ≡ counted file most k line }
{
    if most <= k {
        return Err(Refusal::at(TOO_MANY, file, k + 1));
    }
    line.map_err(|fault| Refusal::at_column(fault.number, file, k + 1, fault.column))
}

// A value is stored where there is room for it.
pub(crate) fn put<T: Copy>(area: &mut [T], i: usize, value: T)
    ensures { area.new ≡ set area.old i value }
{
    if i < area.len() {
        area[i] = value;
    }
}
