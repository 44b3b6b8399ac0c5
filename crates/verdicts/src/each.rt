// Each kernel's verdict: the kernel runs, then the claim is read against its results.
ghost use Rattle.std.specs.Prelude.{◌≡◌, length};
ghost use Rattle.basis.specs.Area.{cleared};
ghost use Rattle.graph.specs.Sound.{standing};
ghost use Rattle.matching.specs.Verdict.{says};
ghost use Rattle.verdicts.specs.Steps.{Roomy, numbers, bfs_verdict, wcc_verdict, cdlp_verdict, terms, lcc_verdict};

use crate::claims::{numbers_on, terms_on};
use basis::Refusal;
use bfs::bfs;
use cdlp::cdlp;
use graph::Lent;
use lcc::lcc;
use matching::Verdict;
use matching::numbers::Rule;
use wcc::wcc;

// BFS: exact match; its queue is zero afterwards.
pub(crate) fn on_bfs(
    room: bool,
    most: usize,
    g: Lent,
    root: i64,
    claim: &[u8],
    res: &mut [i64],
    claimed: &mut [i64],
    queue: &mut [usize],
    lines: &mut [usize],
) -> Result<Verdict, Refusal>
    requires roomy { (Roomy room g.size.vertices (length res.old))
        × (Roomy room g.size.vertices (length claimed.old))
        × (Roomy room g.size.vertices (length lines.old)) }
    requires roomy_2 { Roomy room g.size.vertices (length queue.old) }
    ensures lines_after { numbers (says result) res.new claimed.new lines.new
        ≡ bfs_verdict room most (standing g.entry) root claim.now res.old claimed.old lines.old }
    ensures queue_after { queue.new ≡ cleared queue.old }
{
    let answer = bfs(g, root, res, queue);
    numbers_on(
        answer,
        room,
        Rule::Exact,
        most,
        g.size.vertices,
        g.ids,
        claim,
        res,
        claimed,
        lines,
    )
}

// WCC: equivalence match; its heads are zero afterwards.
pub(crate) fn on_wcc(
    room: bool,
    most: usize,
    g: Lent,
    claim: &[u8],
    res: &mut [i64],
    claimed: &mut [i64],
    heads: &mut [usize],
    lines: &mut [usize],
) -> Result<Verdict, Refusal>
    requires roomy { (Roomy room g.size.vertices (length res.old))
        × (Roomy room g.size.vertices (length claimed.old))
        × (Roomy room g.size.vertices (length lines.old)) }
    requires roomy_2 { Roomy room g.size.vertices (length heads.old) }
    ensures lines_after { numbers (says result) res.new claimed.new lines.new
        ≡ wcc_verdict room most (standing g.entry) claim.now res.old claimed.old lines.old }
    ensures heads_after { heads.new ≡ cleared heads.old }
{
    let answer = wcc(g, res, heads);
    numbers_on(
        answer,
        room,
        Rule::Equivalence,
        most,
        g.size.vertices,
        g.ids,
        claim,
        res,
        claimed,
        lines,
    )
}

// CDLP: exact match; its three working areas are zero afterwards.
pub(crate) fn on_cdlp(
    room: bool,
    most: usize,
    g: Lent,
    iterations: i64,
    claim: &[u8],
    res: &mut [i64],
    claimed: &mut [i64],
    labels: &mut [usize],
    next: &mut [usize],
    counts: &mut [usize],
    lines: &mut [usize],
) -> Result<Verdict, Refusal>
    requires roomy { (Roomy room g.size.vertices (length res.old))
        × (Roomy room g.size.vertices (length claimed.old))
        × (Roomy room g.size.vertices (length lines.old)) }
    requires roomy_2 { (Roomy room g.size.vertices (length labels.old))
        × (Roomy room g.size.vertices (length next.old))
        × (Roomy room g.size.vertices (length counts.old)) }
    ensures lines_after { numbers (says result) res.new claimed.new lines.new
        ≡ cdlp_verdict room most (standing g.entry) iterations claim.now res.old claimed.old lines.old }
    ensures labels_after { (labels.new ≡ cleared labels.old)
        × (next.new ≡ cleared next.old)
        × (counts.new ≡ cleared counts.old) }
{
    let answer = cdlp(g, iterations, res, labels, next, counts);
    numbers_on(
        answer,
        room,
        Rule::Exact,
        most,
        g.size.vertices,
        g.ids,
        claim,
        res,
        claimed,
        lines,
    )
}

// LCC: epsilon match; its working area is zero afterwards.
pub(crate) fn on_lcc(
    room: bool,
    most: usize,
    g: Lent,
    claim: &[u8],
    numerators: &mut [usize],
    denominators: &mut [usize],
    work: &mut [usize],
    lines: &mut [usize],
) -> Result<Verdict, Refusal>
    requires roomy { (Roomy room g.size.vertices (length numerators.old))
        × (Roomy room g.size.vertices (length denominators.old))
        × (Roomy room g.size.vertices (length lines.old)) }
    requires roomy_2 { Roomy room g.size.vertices (length work.old) }
    ensures lines_after { terms (says result) numerators.new denominators.new lines.new
        ≡ lcc_verdict room most (standing g.entry) claim.now numerators.old denominators.old lines.old }
    ensures work_after { work.new ≡ cleared work.old }
{
    let answer = lcc(g, numerators, denominators, work);
    terms_on(
        answer,
        room,
        most,
        g.size.vertices,
        g.ids,
        claim,
        numerators,
        denominators,
        lines,
    )
}
