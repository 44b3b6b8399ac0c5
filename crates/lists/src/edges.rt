// The edge file, line by line.
ghost use Rattle.std.specs.Prelude.{◌≡◌, ◌-◌, ◌<◌, ◌^◌, length};
ghost use Rattle.basis.specs.Area.{cleared};
ghost use Rattle.basis.specs.Refusal.{said};
ghost use Rattle.graph.specs.Find.{bisected};
ghost use Rattle.lists.specs.Files.{is_above};
ghost use Rattle.lists.specs.Calls.{edge_outcome, edge_call};
ghost use Rattle.lists.specs.Steps.{before_of, order_fault, looked_by, numbered_step, step_says, edges_scanned, edges_left};

use crate::{Lines, counted, put};
use basis::Refusal;
use basis::area::{clear, number_at};
use basis::order::{less, same};
use basis::refusal::{EDGE_FILE, LARGER_FIRST, NOT_ABOVE, SELF_EDGE, UNKNOWN_VERTEX};
use graph::find::find;
use text::line::Cursor;

// Whether an edge is above the one before it, if there is one.
// Stays: by `less` and `same`, beside the vertex file's test. With one generic test by `<` no order that is read would go by these two.
fn is_above(last: Option<(i64, i64)>, edge: (i64, i64)) -> bool
    ensures { result ≡ is_above (before_of last) edge }
{
    let (a, b) = edge;
    match last {
        None => true,
        Some((p, q)) => less(p, a) || same(p, a) && less(q, b),
    }
}

// The number of the fault of an edge in its order; its vertices are not looked up yet.
// Stays: `undirected` as a flag, here and below. It says what the file's edges are, as the definitions do, and is tested here alone.
fn order_fault(undirected: bool, last: Option<(i64, i64)>, edge: (i64, i64)) -> Option<usize>
    ensures { result ≡ order_fault undirected (before_of last) edge }
{
    let (a, b) = edge;
    if same(a, b) {
        return Some(SELF_EDGE);
    }
    if undirected && less(b, a) {
        return Some(LARGER_FIRST);
    }
    if is_above(last, edge) {
        return None;
    }
    Some(NOT_ABOVE)
}

// The numbers of an edge's vertices, if both are there.
fn look_up(ids: &[i64], edge: (i64, i64)) -> Option<(usize, usize)>
    ensures { result ≡ looked_by (bisected ids.now edge.0) (bisected ids.now edge.1) }
{
    let (a, b) = edge;
    Some((find(ids, a)?, find(ids, b)?))
}

// One edge line more: the numbers of its vertices, or none where no line is left.
fn next_edge(
    lines: &mut Lines<(i64, i64)>,
    s: &[u8],
    most: usize,
    undirected: bool,
    ids: &[i64],
) -> Result<Option<(usize, usize)>, Refusal>
    requires { lines.now.passed < 2 ^ 64 - 1 }
    ensures { step_says lines.new result ≡ numbered_step undirected most (bisected ids.now) s.now lines.old }
{
    let (line, next) = lines.at.edge(s);
    lines.at = next;
    let Some(line) = line else {
        return Ok(None);
    };
    let edge = counted(EDGE_FILE, most, lines.passed, line)?;
    let number = lines.passed + 1;
    if let Some(fault) = order_fault(undirected, lines.last, edge) {
        return Err(Refusal::at(fault, EDGE_FILE, number));
    }
    let ends = look_up(ids, edge).ok_or(Refusal::at(UNKNOWN_VERTEX, EDGE_FILE, number))?;
    lines.passed = number;
    lines.last = Some(edge);
    Ok(Some(ends))
}

// The edges of an edge file, stored in two areas: one more for each in `counts` at its first end, the second ends in `targets`.
fn scan_edges(
    s: &[u8],
    most: usize,
    undirected: bool,
    ids: &[i64],
    counts: &mut [usize],
    targets: &mut [usize],
) -> Result<usize, Refusal>
    requires { counts.old ≡ cleared counts.old }
    ensures { edges_left result counts.new targets.new
        ≡ edges_scanned undirected most (bisected ids.now) s.now counts.old targets.old }
{
    let mut lines = Lines {
        at: Cursor { at: 0 },
        passed: 0,
        last: None,
    };
    // Stays: a loop, and no `for`. The reader moves by what a line says, and ends at the first fault or past the last line.
    while let Some((u, v)) = next_edge(&mut lines, s, most, undirected, ids)? {
        let degree = number_at(counts, u);
        put(counts, u, degree + 1);
        put(targets, lines.passed - 1, v);
    }
    Ok(lines.passed)
}

// The edges of an edge file of at most so many lines between the vertices of a list that rises. `counts` holds how many edges begin at each
// vertex, `targets` their second ends in file order, as far as there is room; zeros behind them, and throughout where the file is refused.
pub fn read_edges(
    s: &[u8],
    most: usize,
    undirected: bool,
    ids: &[i64],
    counts: &mut [usize],
    targets: &mut [usize],
) -> Result<usize, Refusal>
    ensures { edge_outcome (said result) counts.new targets.new
        ≡ edge_call undirected most (bisected ids.now) s.now
        (length counts.old) (length targets.old) }
{
    clear(counts);
    clear(targets);
    let listed = scan_edges(s, most, undirected, ids, counts, targets);
    if listed.is_err() {
        clear(counts);
        clear(targets);
    }
    listed
}
