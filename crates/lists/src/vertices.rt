// The vertex file, line by line.
ghost use Rattle.std.specs.Prelude.{◌≡◌, eqb, ◌-◌, ◌<◌, ◌^◌, length};
ghost use Rattle.basis.specs.Refusal.{said, mapped};
ghost use Rattle.lists.specs.Files.{vertex_test, identifiers};
ghost use Rattle.lists.specs.Calls.{vertex_outcome, vertex_call};
ghost use Rattle.lists.specs.Steps.{before_of, step_says, vertex_step, ids_into, ids_left};

use crate::{Lines, counted, put};
use basis::Refusal;
use basis::area::clear;
use basis::order::less;
use basis::refusal::{NOT_ABOVE, VERTEX_FILE};
use text::line::Cursor;

// Whether an identifier is above the one before it, if there is one.
fn is_above(last: Option<i64>, z: i64) -> bool
    ensures { result ≡ eqb (vertex_test (before_of last) z) 0 }
{
    match last {
        None => true,
        Some(y) => less(y, z),
    }
}

// One vertex line more: its identifier, or none where no line is left.
fn next_vertex(lines: &mut Lines<i64>, s: &[u8], most: usize) -> Result<Option<i64>, Refusal>
    requires { lines.now.passed < 2 ^ 64 - 1 }
    ensures { step_says lines.new result ≡ vertex_step s.now most lines.old }
{
    let (line, next) = lines.at.vertex(s);
    lines.at = next;
    let Some(line) = line else {
        return Ok(None);
    };
    let z = counted(VERTEX_FILE, most, lines.passed, line)?;
    let number = lines.passed + 1;
    if !is_above(lines.last, z) {
        return Err(Refusal::at(NOT_ABOVE, VERTEX_FILE, number));
    }
    lines.passed = number;
    lines.last = Some(z);
    Ok(Some(z))
}

// The identifiers of a vertex file, stored from the front of an area.
fn scan_vertices(s: &[u8], most: usize, ids: &mut [i64]) -> Result<usize, Refusal>
    ensures { ids_left result ids.new ≡ mapped (ids_into ids.old 0) (identifiers most s.now) }
{
    let mut lines = Lines {
        at: Cursor { at: 0 },
        passed: 0,
        last: None,
    };
    // Stays: a loop, and no `for`. The reader moves by what a line says, and ends at the first fault or past the last line.
    while let Some(z) = next_vertex(&mut lines, s, most)? {
        put(ids, lines.passed - 1, z);
    }
    Ok(lines.passed)
}

// The identifiers of a vertex file of at most so many lines, as far as there is room for them; zeros behind them, and throughout where
// the file is refused.
pub fn read_vertices(s: &[u8], most: usize, ids: &mut [i64]) -> Result<usize, Refusal>
    ensures { vertex_outcome (said result) ids.new ≡ vertex_call most s.now (length ids.old) }
{
    clear(ids);
    let listed = scan_vertices(s, most, ids);
    if listed.is_err() {
        clear(ids);
    }
    listed
}
