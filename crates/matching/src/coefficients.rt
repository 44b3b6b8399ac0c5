// A claim whose values are decimals, beside the reference output's fractions.
ghost use Rattle.std.specs.Prelude.{◌≡◌, ◌≤◌, length};
ghost use Rattle.matching.specs.Verdict.{says};
ghost use Rattle.basis.specs.Area.{cleared};
ghost use Rattle.matching.specs.Calls.{near_within, told, coefficients_call};
ghost use Rattle.matching.specs.Steps.{counted, FoundBelow, far_step, JudgedOf};

use crate::close::close;
use crate::judged::Verdict;
use crate::numbers::{has_room, verdict_of};
use crate::reading::{ended, found, recorded, strayed};
use basis::Refusal;
use basis::area::clear;
use basis::refusal::{CLAIM_FILE, NO_ROOM, TOO_MANY};
use text::Cursor;
use text::decimal::Decimal;

// A decimal is near a fraction whose terms are within 32 bits.
fn near_within(a: usize, b: usize, s: Decimal) -> bool
    ensures { result ≡ near_within (a, b) s }
{
    match (u32::try_from(a), u32::try_from(b)) {
        (Ok(a), Ok(b)) => close(a, b, s),
        _ => false,
    }
}

// The smallest vertex at fault once a new vertex, or none, has claimed s.
fn measured(
    numerators: &[usize],
    denominators: &[usize],
    vertex: Option<usize>,
    s: Decimal,
    far: Option<usize>,
) -> Option<usize>
    requires { (FoundBelow vertex (length numerators.now)) × (FoundBelow vertex (length denominators.now)) }
    ensures { counted result ≡ far_step numerators.now denominators.now vertex s (counted far) }
{
    let Some(v) = vertex else {
        return far;
    };
    if near_within(numerators[v], denominators[v], s) {
        return far;
    }
    Some(far.map_or(v, |u| u.min(v)))
}

// All lines are read, whatever is found in them, since a fault in a later one comes first. `lines` is zero before.
// Stays: read_numbers is like it. What both do with a line is in found, recorded, strayed and ended; the rest is each one's own step.
fn read_coefficients(
    most: usize,
    ids: &[i64],
    numerators: &[usize],
    denominators: &[usize],
    claim: &[u8],
    lines: &mut [usize],
) -> Result<Verdict, Refusal>
    requires ids_in_bounds { (length ids.now ≤ length numerators.now) × (length ids.now ≤ length denominators.now) }
    requires ids_in_bounds_2 { (length ids.now ≤ length lines.old) × (lines.old ≡ cleared lines.old) }
    ensures { JudgedOf most ids.now numerators.now denominators.now claim.now
        (length lines.old) lines.new (says result) }
{
    let n = ids.len();
    let mut cursor = Cursor { at: 0 };
    let mut stray = None;
    let mut far = None;
    for k in 0..most {
        let (line, next) = cursor.coefficient_claim(claim);
        cursor = next;
        let Some((id, s)) = found(line, k)? else {
            return Ok(verdict_of(ended(lines, n, k, stray), far, lines));
        };
        let vertex = recorded(ids, lines, k, id);
        far = measured(numerators, denominators, vertex, s, far);
        stray = strayed(vertex, k, stray);
    }
    if cursor.at < claim.len() {
        return Err(Refusal::at(TOO_MANY, CLAIM_FILE, most + 1));
    }
    Ok(verdict_of(ended(lines, n, most, stray), far, lines))
}

// A claim of at most so many lines, on vertices with these identifiers; `lines` is a working area.
pub fn judge_coefficients(
    most: usize,
    ids: &[i64],
    numerators: &[usize],
    denominators: &[usize],
    claim: &[u8],
    lines: &mut [usize],
) -> Result<Verdict, Refusal>
    ensures { told (says result) lines.new
        ≡ coefficients_call most ids.now numerators.now denominators.now claim.now
        lines.old }
{
    clear(lines);
    if !has_room(ids.len(), numerators.len(), denominators.len(), lines.len()) {
        return Err(Refusal::plain(NO_ROOM));
    }
    let judged = read_coefficients(most, ids, numerators, denominators, claim, lines);
    clear(lines);
    judged
}
