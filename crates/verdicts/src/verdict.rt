// The verdict on a lent graph: 12, then as its kernel does, then the claim.
ghost use Rattle.std.specs.Prelude.{◌≡◌, ◌&&◌, leb};
ghost use Rattle.graph.specs.Sound.{standing};
ghost use Rattle.matching.specs.Verdict.{says};
ghost use Rattle.verdicts.specs.Call.{most_lines, outcome, unknown_call, verdict_call};

use crate::each::{on_bfs, on_cdlp, on_lcc, on_wcc};
use basis::Refusal;
use basis::area::clear;
use basis::refusal::UNKNOWN_NUMBER;
use graph::Lent;
use kernels::Kernel;
use matching::Verdict;

// How many lines a claim may have.
pub const MOST_LINES: usize = 65536;

// Areas of these lengths have n places each.
fn has_room(
    n: usize,
    res: usize,
    claimed: usize,
    first: usize,
    second: usize,
    third: usize,
    lines: usize,
) -> bool
    ensures { result ≡ (leb n res && (leb n claimed && (leb n first && (leb n second && (leb n third && leb n lines))))) }
{
    n <= res && n <= claimed && n <= first && n <= second && n <= third && n <= lines
}

// The refusal of an unknown kernel number: all areas are zero.
fn refuse_unknown(
    res: &mut [i64],
    claimed: &mut [i64],
    first: &mut [usize],
    second: &mut [usize],
    third: &mut [usize],
    lines: &mut [usize],
) -> Result<Verdict, Refusal>
    ensures { outcome (says result) res.new claimed.new first.new second.new third.new
        lines.new
        ≡ unknown_call
        res.old claimed.old first.old second.old third.old
        lines.old }
{
    clear(res);
    clear(claimed);
    clear(first);
    clear(second);
    clear(third);
    clear(lines);
    Err(Refusal::plain(UNKNOWN_NUMBER))
}

// The verdict on a claim of at most so many lines. Each area serves its kernel: BFS, WCC and CDLP leave their values in `result`, which
// holds WCC's book before, and read the claim's into `claimed`; `first` is BFS's queue and WCC's heads, the three together CDLP's labels,
// next labels and counts; LCC leaves its fractions in `first` and `second` and works in `third`. `lines` maps the vertices to their lines.
pub fn verdict_within(
    most: usize,
    g: Lent,
    kernel: usize,
    parameter: i64,
    claim: &[u8],
    res: &mut [i64],
    claimed: &mut [i64],
    first: &mut [usize],
    second: &mut [usize],
    third: &mut [usize],
    lines: &mut [usize],
) -> Result<Verdict, Refusal>
    ensures { outcome (says result) res.new claimed.new first.new second.new third.new
        lines.new
        ≡ verdict_call most (standing g.entry) kernel parameter claim.now
        res.old claimed.old first.old second.old third.old
        lines.old }
{
    let room = has_room(
        g.size.vertices,
        res.len(),
        claimed.len(),
        first.len(),
        second.len(),
        third.len(),
        lines.len(),
    );
    match Kernel::try_from(kernel) {
        Ok(Kernel::Bfs) => {
            clear(second);
            clear(third);
            on_bfs(room, most, g, parameter, claim, res, claimed, first, lines)
        }
        Ok(Kernel::Wcc) => {
            clear(second);
            clear(third);
            on_wcc(room, most, g, claim, res, claimed, first, lines)
        }
        Ok(Kernel::Cdlp) => on_cdlp(
            room, most, g, parameter, claim, res, claimed, first, second, third, lines,
        ),
        Ok(Kernel::Lcc) => {
            clear(res);
            clear(claimed);
            on_lcc(room, most, g, claim, first, second, third, lines)
        }
        Ok(Kernel::Sssp) => refuse_unknown(res, claimed, first, second, third, lines),
        Err(_) => refuse_unknown(res, claimed, first, second, third, lines),
    }
}

// The verdict at the library's limit of lines.
pub fn verdict(
    g: Lent,
    kernel: usize,
    parameter: i64,
    claim: &[u8],
    res: &mut [i64],
    claimed: &mut [i64],
    first: &mut [usize],
    second: &mut [usize],
    third: &mut [usize],
    lines: &mut [usize],
) -> Result<Verdict, Refusal>
    ensures { outcome (says result) res.new claimed.new first.new second.new third.new
        lines.new
        ≡ verdict_call most_lines (standing g.entry) kernel parameter claim.now
        res.old claimed.old first.old second.old third.old
        lines.old }
{
    verdict_within(
        MOST_LINES, g, kernel, parameter, claim, res, claimed, first, second, third, lines,
    )
}
