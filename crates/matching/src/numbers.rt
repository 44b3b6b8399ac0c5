// A claim whose values are in identifier form, beside the reference output.
ghost use Rattle.std.specs.Prelude.{◌≡◌, length, ◌≤◌, Ok, not, position, zip};
ghost use Rattle.basis.specs.Order.{same_z};
ghost use Rattle.basis.specs.Refusal.{gives};
ghost use Rattle.matching.specs.Verdict.{says, unequal_vertex, mismatch_vertex, verdict_of};
ghost use Rattle.matching.specs.Calls.{outcome, room_in_three, numbers_call};
ghost use Rattle.matching.specs.Steps.{counted, Reportable, ReadWell, reported_in, read_judged};

use crate::judged::Verdict;
use crate::kinds::first_unlike;
use crate::reading::read_numbers;
use basis::Refusal;
use basis::area::clear;
use basis::order::same;
use basis::refusal::NO_ROOM;

// The methods for numbers: exact match, for BFS and CDLP, and equivalence match, for WCC.
#[derive(Clone, Copy, Debug, PartialEq, Eq)]
pub enum Rule {
    Exact,
    Equivalence,
}

// The first vertex at which two lists differ.
fn first_unequal(a: &[i64], b: &[i64]) -> Option<usize>
    requires { length a.now ≡ length b.now }
    ensures { result ≡ position (λ x. not (same_z x.0 x.1)) (zip a.now b.now) }
{
    a.iter().zip(b).position(|(x, y)| !same(*x, *y))
}

// The smallest vertex at fault by a rule.
fn mismatch(rule: Rule, reference: &[i64], claimed: &[i64]) -> Option<usize>
    requires { length reference.now ≡ length claimed.now }
    ensures { counted result ≡ mismatch_vertex rule reference.now claimed.now }
{
    match rule {
        Rule::Exact => first_unequal(reference, claimed),
        Rule::Equivalence => first_unlike(reference, claimed),
    }
}

// The verdict by the place of the first incomplete line and by the smallest vertex at fault, which is reported by its claim line.
pub(crate) fn verdict_of(
    incomplete: Option<usize>,
    fault: Option<usize>,
    lines: &[usize],
) -> Verdict
    requires { Reportable incomplete fault lines.now }
    ensures { says (Ok result) ≡ gives (verdict_of (counted incomplete) (reported_in lines.now (counted fault))) }
{
    match (incomplete, fault) {
        (Some(k), _) => Verdict::Incomplete(k + 1),
        (None, Some(v)) => Verdict::Mismatch(lines[v]),
        (None, None) => Verdict::Match,
    }
}

// What is said of a claim once it is read: matching is looked at only where it is complete.
fn judged_on(
    rule: Rule,
    read: Result<Option<usize>, Refusal>,
    reference: &[i64],
    claimed: &[i64],
    lines: &[usize],
) -> Result<Verdict, Refusal>
    requires same_size { (length reference.now ≡ length claimed.now) × (length claimed.now ≤ length lines.now) }
    requires well_read { ReadWell read (length claimed.now) lines.now }
    ensures { says result ≡ read_judged rule reference.now claimed.now lines.now read }
{
    let incomplete = read?;
    let fault = match incomplete {
        Some(_) => None,
        None => mismatch(rule, reference, claimed),
    };
    Ok(verdict_of(incomplete, fault, lines))
}

// Three areas of these lengths have n places each.
pub(crate) fn has_room(n: usize, first: usize, second: usize, third: usize) -> bool
    ensures { result ≡ room_in_three n first second third }
{
    n <= first && n <= second && n <= third
}

// A claim of at most so many lines, on vertices with these identifiers; `claimed` and `lines` are working areas.
pub fn judge_numbers(
    rule: Rule,
    most: usize,
    ids: &[i64],
    reference: &[i64],
    claim: &[u8],
    claimed: &mut [i64],
    lines: &mut [usize],
) -> Result<Verdict, Refusal>
    ensures { outcome (says result) claimed.new lines.new
        ≡ numbers_call rule most ids.now reference.now claim.now
        claimed.old lines.old }
{
    let n = ids.len();
    clear(lines);
    if !has_room(n, reference.len(), claimed.len(), lines.len()) {
        clear(claimed);
        return Err(Refusal::plain(NO_ROOM));
    }
    let read = read_numbers(most, ids, claim, claimed, lines);
    let judged = judged_on(rule, read, &reference[..n], &claimed[..n], lines);
    clear(claimed);
    clear(lines);
    judged
}
