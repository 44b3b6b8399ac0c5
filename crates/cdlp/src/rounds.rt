// Rounds of label propagation on areas that have one place a vertex.
ghost use Rattle.std.specs.Prelude.{◌≡◌, length, pos};
ghost use Rattle.basis.specs.Area.{own_numbers};
ghost use Rattle.graph.specs.Sound.{standing};
ghost use Rattle.cdlp.specs.Rounds.{labels_at, cdlp_of};
ghost use Rattle.cdlp.specs.Steps.{Runnable, next_numbers, numbers_after, Fitting, Nameable};

use crate::label::settle;
use basis::area::{clear, copy};
use graph::Lent;
use view::neighbours;

// Every label is the vertex's own number.
fn number(labels: &mut [usize])
    ensures { labels.new ≡ own_numbers (length labels.old) }
{
    for (v, label) in labels.iter_mut().enumerate() {
        *label = v;
    }
}

// The identifiers of the labels.
#[tactic(auto, using(basis::proofs::Scans::below_at))]
fn name(ids: &[i64], labels: &[usize], res: &mut [i64])
    requires { Nameable ids.now labels.now res.old }
    ensures { res.new ≡ labels_at (pos 0) ids.now labels.now }
{
    for (v, label) in labels.iter().enumerate() {
        res[v] = ids[*label];
    }
}

// One round: every vertex's next label, from the labels of the round before.
fn round(g: Lent, labels: &[usize], next: &mut [usize], counts: &mut [usize])
    requires { Runnable (standing g) labels.now next.old counts.old }
    ensures next { next.new ≡ next_numbers (standing g.entry) labels.now }
    ensures counts { counts.new ≡ counts.old }
{
    for (v, own) in labels.iter().enumerate() {
        let inward = neighbours(g.inward.targets, g.inward.offsets, g.size.vertices, v);
        let outward = neighbours(g.outward.targets, g.outward.offsets, g.size.vertices, v);
        next[v] = settle(inward, outward, labels, counts, *own);
    }
}

// So many rounds.
fn turns(g: Lent, k: usize, labels: &mut [usize], next: &mut [usize], counts: &mut [usize])
    requires { Runnable (standing g) labels.old next.old counts.old }
    ensures { labels.new ≡ numbers_after (standing g.entry) labels.old k }
{
    for _ in 0..k {
        round(g, labels, next, counts);
        copy(next, next.len(), labels);
    }
}

// The labels after k rounds, as identifiers.
pub(crate) fn propagate(
    g: Lent,
    k: usize,
    res: &mut [i64],
    labels: &mut [usize],
    next: &mut [usize],
    counts: &mut [usize],
)
    requires { Fitting (standing g) res.old labels.old next.old counts.old }
    ensures { res.new ≡ cdlp_of (standing g.entry) k }
{
    number(labels);
    clear(counts);
    turns(g, k, labels, next, counts);
    name(g.ids, labels, res);
}
