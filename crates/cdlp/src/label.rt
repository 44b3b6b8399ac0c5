// One vertex's next label. Inside, a label is the number of the vertex whose identifier it is.
ghost use Rattle.std.specs.Prelude.{◌≡◌, ◌++◌, eqb, ltb};
ghost use Rattle.cdlp.specs.Label.{next_label};
ghost use Rattle.cdlp.specs.Rounds.{labels_at};
ghost use Rattle.cdlp.specs.Steps.{best_with, Labelled, Heard, TwoParts, poll, polled_all, forgotten};

// The label that leads, and how often it was heard.
#[derive(Clone, Copy, Debug, PartialEq, Eq)]
struct Best {
    label: usize,
    count: usize,
}

// A label is heard for the count-th time: does it lead now?
#[tactic(auto, unfolding(crate::specs::Steps::best_with))]
fn lead(b: Best, label: usize, count: usize) -> Best
    ensures { result ≡ best_with b label count }
{
    if count > b.count {
        Best { label, count }
    } else if count < b.count {
        b
    } else if label < b.label {
        Best { label, count }
    } else {
        b
    }
}

// The labels of a part are heard, in order.
#[tactic(auto, using(crate::proofs::Polls::lows))]
fn hear(part: &[usize], labels: &[usize], counts: &mut [usize], start: Best) -> Best
    requires { Heard part.now labels.now counts.old }
    ensures { poll counts.new result
        ≡ polled_all (labels_at 0 labels.now part.now) (poll counts.old start) }
{
    let mut best = start;
    for u in part {
        let l = labels[*u];
        let c = counts[l] + 1;
        counts[l] = c;
        best = lead(best, l, c);
    }
    best
}

// The counts of a part's labels go back to zero.
#[tactic(auto, using(crate::proofs::Polls::lows))]
fn forget(part: &[usize], labels: &[usize], counts: &mut [usize])
    requires { Labelled part.now labels.now counts.old }
    ensures { counts.new ≡ forgotten (labels_at 0 labels.now part.now) counts.old }
{
    for u in part {
        counts[labels[*u]] = 0;
    }
}

// The next label, from the vertex's own and its neighbours'. Walking the neighbours again puts the counts back to zero, so a round costs no
// more than its arcs.
pub(crate) fn settle(
    inward: &[usize],
    outward: &[usize],
    labels: &[usize],
    counts: &mut [usize],
    own: usize,
) -> usize
    requires { TwoParts inward.now outward.now labels.now counts.old }
    ensures label { result ≡ next_label eqb ltb own (labels_at 0 labels.now (inward.now ++ outward.now)) }
    ensures counts { counts.new ≡ counts.old }
{
    let start = Best {
        label: own,
        count: 0,
    };
    let first = hear(inward, labels, counts, start);
    let last = hear(outward, labels, counts, first);
    forget(inward, labels, counts);
    forget(outward, labels, counts);
    last.label
}
