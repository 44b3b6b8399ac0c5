// A claim on what a kernel has answered and left in its result areas. A refusal leaves them zero.
ghost use Rattle.std.specs.Prelude.{◌≡◌, length, pos, take};
ghost use Rattle.kernels.specs.Answer.{says as answers};
ghost use Rattle.matching.specs.Verdict.{says};
ghost use Rattle.verdicts.specs.Steps.{unless_refused, Worked, Known, Roomy};
ghost use Rattle.verdicts.specs.Steps.{numbers, numbers_says, numbers_on, terms, terms_says, terms_on};

use basis::Refusal;
use basis::area::{Zero, clear};
use basis::refusal::NO_ROOM;
use matching::Verdict;
use matching::coefficients::judge_coefficients;
use matching::numbers::{Rule, judge_numbers};

// An area stays after a verdict and is cleared after a refusal.
fn settle<T: Zero>(judged: &Result<Verdict, Refusal>, area: &mut [T])
    ensures { area.new ≡ unless_refused (says judged.now) T.ZERO area.old }
{
    if judged.is_err() {
        clear(area);
    }
}

// What is said of a claim of numbers: a kernel's refusal, then that of areas that are too short, then the claim's.
// Stays: `room` as a flag, here, below and in `each`. It is what a test of all six areas answered before the kernel used them.
fn numbers_said(
    answer: Result<(), Refusal>,
    room: bool,
    rule: Rule,
    most: usize,
    n: usize,
    ids: &[i64],
    claim: &[u8],
    res: &[i64],
    claimed: &mut [i64],
    lines: &mut [usize],
) -> Result<Verdict, Refusal>
    requires known { Known (answers answer) n (length ids.now) }
    requires roomy { (Roomy room n (length res.now))
        × (Roomy room n (length claimed.old))
        × (Roomy room n (length lines.old)) }
    ensures value { says result ≡ numbers_says (answers answer) room rule most (take n ids.now) (take n res.now) claim.now }
    ensures areas_after { (Worked (says result) (pos 0) claimed.old claimed.new) × (Worked (says result) 0 lines.old lines.new) }
{
    answer?;
    if !room {
        return Err(Refusal::plain(NO_ROOM));
    }
    judge_numbers(rule, most, &ids[..n], res, claim, claimed, lines)
}

// The same of a claim of coefficients.
// Stays: numbers_said is like it, but each calls a judge of its own with other areas, and what both share is in settle.
fn terms_said(
    answer: Result<(), Refusal>,
    room: bool,
    most: usize,
    n: usize,
    ids: &[i64],
    claim: &[u8],
    first: &[usize],
    second: &[usize],
    lines: &mut [usize],
) -> Result<Verdict, Refusal>
    requires known { Known (answers answer) n (length ids.now) }
    requires roomy { (Roomy room n (length first.now))
        × (Roomy room n (length second.now))
        × (Roomy room n (length lines.old)) }
    ensures value { says result ≡ terms_says (answers answer) room most n ids.now claim.now first.now second.now }
    ensures lines_after { Worked (says result) 0 lines.old lines.new }
{
    answer?;
    if !room {
        return Err(Refusal::plain(NO_ROOM));
    }
    judge_coefficients(most, &ids[..n], first, second, claim, lines)
}

// A claim of numbers on a kernel's results, by its rule; `room` says whether all areas have room.
// Stays: the areas lent for writing are parameters one by one, here and below: a struct of `&mut` needs a ghost-name clause for each.
pub(crate) fn numbers_on(
    answer: Result<(), Refusal>,
    room: bool,
    rule: Rule,
    most: usize,
    n: usize,
    ids: &[i64],
    claim: &[u8],
    res: &mut [i64],
    claimed: &mut [i64],
    lines: &mut [usize],
) -> Result<Verdict, Refusal>
    requires known { Known (answers answer) n (length ids.now) }
    requires roomy { (Roomy room n (length res.old))
        × (Roomy room n (length claimed.old))
        × (Roomy room n (length lines.old)) }
    ensures { numbers (says result) res.new claimed.new lines.new
        ≡ numbers_on (answers answer) room rule most n
        ids.now claim.now res.old claimed.old lines.old }
{
    let judged = numbers_said(answer, room, rule, most, n, ids, claim, res, claimed, lines);
    settle(&judged, res);
    settle(&judged, claimed);
    settle(&judged, lines);
    judged
}

// A claim of coefficients on a kernel's two result areas; `room` says whether all areas have room.
pub(crate) fn terms_on(
    answer: Result<(), Refusal>,
    room: bool,
    most: usize,
    n: usize,
    ids: &[i64],
    claim: &[u8],
    first: &mut [usize],
    second: &mut [usize],
    lines: &mut [usize],
) -> Result<Verdict, Refusal>
    requires known { Known (answers answer) n (length ids.now) }
    requires roomy { (Roomy room n (length first.old))
        × (Roomy room n (length second.old))
        × (Roomy room n (length lines.old)) }
    ensures { terms (says result) first.new second.new lines.new
        ≡ terms_on (answers answer) room most n
        ids.now claim.now first.old second.old lines.old }
{
    let judged = terms_said(answer, room, most, n, ids, claim, first, second, lines);
    settle(&judged, first);
    settle(&judged, second);
    settle(&judged, lines);
    judged
}
