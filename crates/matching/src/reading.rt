// The lines of a claim, read one after the other, and the record that maps each vertex to its claim line.
ghost use Rattle.std.specs.Prelude.{◌≡◌, ◌+◌, ◌-◌, ◌^◌, ◌<◌, ◌≤◌, length};
ghost use Rattle.basis.specs.Area.{cleared};
ghost use Rattle.graph.specs.Find.{bisected};
ghost use Rattle.matching.specs.Steps.{counted, Found, new_in, set_at, FoundBelow, stray_step, end_line, ReadOf};

use basis::Refusal;
use basis::refusal::{CLAIM_FILE, TOO_MANY};
use graph::find::find;
use text::{Cursor, Fault};

// What the reader has found after k lines: a line, or the end; or it refuses the line at its fault.
pub(crate) fn found<T>(line: Option<Result<T, Fault>>, k: usize) -> Result<Option<T>, Refusal>
    requires { k < 2 ^ 64 - 1 }
    ensures { Found line k result }
{
    line.transpose().map_err(|fault| Refusal::at_column(
        fault.number,
        CLAIM_FILE,
        k + 1,
        fault.column,
    ))
}

// The line after k others names id: its vertex, if it is one that no earlier line names, has this claim line from now on.
// Stays: 0 stands for no line in the record, since `judge_numbers` promises of this lent area that it is zero before and after.
pub(crate) fn recorded(ids: &[i64], lines: &mut [usize], k: usize, id: i64) -> Option<usize>
    requires { (length ids.now ≤ length lines.old) × (k < 2 ^ 64 - 1) }
    ensures value { result ≡ new_in lines.old (bisected ids.now id) }
    ensures lines_after { lines.new ≡ set_at lines.old result (k + 1) }
{
    let v = find(ids, id)?;
    if lines[v] != 0 {
        return None;
    }
    lines[v] = k + 1;
    Some(v)
}

// The place of the first stray line, once the line after k others has named a new vertex or none.
pub(crate) fn strayed(vertex: Option<usize>, k: usize, stray: Option<usize>) -> Option<usize>
    ensures { counted result ≡ stray_step vertex k (counted stray) }
{
    match vertex {
        Some(_) => stray,
        None => stray.or(Some(k)),
    }
}

// The place of the first incomplete line of a claim that ends after k lines: a stray one, or the line after the last where a vertex is
// missing.
pub(crate) fn ended(lines: &[usize], n: usize, k: usize, stray: Option<usize>) -> Option<usize>
    requires { n ≤ length lines.now }
    ensures { counted result ≡ end_line lines.now n k (counted stray) }
{
    if stray.is_none() && lines[..n].contains(&0) {
        return Some(k);
    }
    stray
}

// A new vertex's value is kept.
fn keep(claimed: &mut [i64], vertex: Option<usize>, value: i64)
    requires { FoundBelow vertex (length claimed.old) }
    ensures { claimed.new ≡ set_at claimed.old vertex value }
{
    if let Some(v) = vertex {
        claimed[v] = value;
    }
}

// The lines of a claim whose values are numbers; where it is complete, these stand in `claimed`, in vertex order. `lines` is zero before.
pub(crate) fn read_numbers(
    most: usize,
    ids: &[i64],
    claim: &[u8],
    claimed: &mut [i64],
    lines: &mut [usize],
) -> Result<Option<usize>, Refusal>
    requires ids_in_bounds { (length ids.now ≤ length claimed.old) × (length ids.now ≤ length lines.old) }
    requires lines_value { lines.old ≡ cleared lines.old }
    ensures { ReadOf most ids.now claim.now (length claimed.old) (length lines.old)
        claimed.new lines.new result }
{
    let n = ids.len();
    let mut cursor = Cursor { at: 0 };
    let mut stray = None;
    for k in 0..most {
        let (line, next) = cursor.claim(claim);
        cursor = next;
        let Some((id, value)) = found(line, k)? else {
            return Ok(ended(lines, n, k, stray));
        };
        let vertex = recorded(ids, lines, k, id);
        keep(claimed, vertex, value);
        stray = strayed(vertex, k, stray);
    }
    if cursor.at < claim.len() {
        return Err(Refusal::at(TOO_MANY, CLAIM_FILE, most + 1));
    }
    Ok(ended(lines, n, most, stray))
}
