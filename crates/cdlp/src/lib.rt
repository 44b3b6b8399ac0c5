// Layer kernels. CDLP: community detection by label propagation.
#![tactic(auto)]

mod label;
mod rounds;

ghost use Rattle.std.specs.Prelude.{◌≡◌};
ghost use Rattle.basis.specs.Refusal.{gives};
ghost use Rattle.basis.specs.Area.{cleared};
ghost use Rattle.graph.specs.Sound.{standing};
ghost use Rattle.kernels.specs.Answer.{says};
ghost use Rattle.cdlp.specs.Call.{outcome, refusal, good_rounds, room_for, left_by, cdlp_call};
ghost use Rattle.cdlp.specs.Steps.{Ready, worked};

use basis::Refusal;
use basis::area::clear;
use basis::refusal::{BAD_ROUNDS, NO_ROOM, UNSOUND};
use graph::Lent;
use graph::walk::sound_over;
use kernels::refused;
use rounds::propagate;

// The limit of rounds, `Call.most_rounds`.
const MOST_ROUNDS: i64 = 1000;

// Is this a number of rounds within the limit?
#[tactic(auto, unfolding(crate::specs::Call::good_rounds))]
fn allowed(iterations: i64) -> bool
    ensures { result ≡ good_rounds iterations }
{
    (0..=MOST_ROUNDS).contains(&iterations)
}

// Has each area n places?
#[tactic(auto, unfolding(crate::specs::Call::room_for))]
fn room(n: usize, res: &[i64], labels: &[usize], next: &[usize], counts: &[usize]) -> bool
    ensures { result ≡ room_for n res.now labels.now next.now counts.now }
{
    n <= res.len() && n <= labels.len() && n <= next.len() && n <= counts.len()
}

// The three working areas are zero.
fn clear_work(labels: &mut [usize], next: &mut [usize], counts: &mut [usize])
    ensures { worked labels.new next.new counts.new
        ≡ worked (cleared labels.old) (cleared next.old) (cleared counts.old) }
{
    clear(labels);
    clear(next);
    clear(counts);
}

// A refusal: all areas are zero.
fn refuse(
    number: usize,
    res: &mut [i64],
    labels: &mut [usize],
    next: &mut [usize],
    counts: &mut [usize],
) -> Result<(), Refusal>
    ensures { outcome (says result) res.new labels.new next.new counts.new
        ≡ refusal number res.old labels.old next.old counts.old }
{
    clear(res);
    clear_work(labels, next, counts);
    refused(number)
}

// The labels after so many rounds, in the first places of areas that have room for them.
fn fill(
    g: Lent,
    k: usize,
    res: &mut [i64],
    labels: &mut [usize],
    next: &mut [usize],
    counts: &mut [usize],
) -> Result<(), Refusal>
    requires { Ready (standing g) res.old labels.old next.old counts.old }
    ensures { outcome (says result) res.new labels.new next.new counts.new
        ≡ left_by (gives tt) (standing g.entry) k res.old labels.old next.old counts.old }
{
    clear(res);
    propagate(
        g,
        k,
        &mut res[..g.size.vertices],
        &mut labels[..g.size.vertices],
        &mut next[..g.size.vertices],
        &mut counts[..g.size.vertices],
    );
    clear_work(labels, next, counts);
    Ok(())
}

// The labels of a sound graph's vertices after so many rounds; or a refusal: 9, 11 or 8. `labels`, `next` and `counts` are working areas.
pub fn cdlp(
    g: Lent,
    iterations: i64,
    res: &mut [i64],
    labels: &mut [usize],
    next: &mut [usize],
    counts: &mut [usize],
) -> Result<(), Refusal>
    ensures { outcome (says result) res.new labels.new next.new counts.new
        ≡ cdlp_call (standing g.entry) iterations res.old labels.old next.old counts.old }
{
    if !sound_over(g, counts) {
        return refuse(UNSOUND, res, labels, next, counts);
    }
    if !allowed(iterations) {
        return refuse(BAD_ROUNDS, res, labels, next, counts);
    }
    if !room(g.size.vertices, res, labels, next, counts) {
        return refuse(NO_ROOM, res, labels, next, counts);
    }
    fill(g, iterations as usize, res, labels, next, counts)
}
