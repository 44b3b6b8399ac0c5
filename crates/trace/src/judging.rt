// Verdicts: on a graph that the host lends, and on the bytes of three files.
ghost use Rattle.std.specs.Prelude.{◌≡◌};
ghost use Rattle.graph.specs.Sound.{lent, standing};
ghost use Rattle.verdicts.specs.Call.{most_lines, verdict_call};
ghost use Rattle.trace.specs.Code.{host_code};
ghost use Rattle.trace.specs.Kernels.{stated_size};
ghost use Rattle.trace.specs.Verdict.{as_refusal, judge_told, judge_tells};
ghost use Rattle.trace.specs.Host.{is_known, host_verdict};
ghost use Rattle.trace.specs.Steps.{desk_judged};

use crate::code::{as_refusal, host_code, refusal_code};
use crate::lent::graph_of;
use basis::Refusal;
use basis::limits::{DESK_EDGES, DESK_VERTICES};
use basis::refusal::UNKNOWN_NUMBER;
use graph::Lent;
use load::{Limits, load_within};
use verdicts::verdict::{verdict, verdict_within};

// How many lines a claim may have at desk limits.
const DESK_LINES: usize = DESK_VERTICES;

// The verdict on a graph that the host lends, at library limits.
#[unsafe(no_mangle)]
pub extern "C" fn trace_judge(
    vertices: usize,
    arcs: usize,
    ids: &[i64],
    out_offsets: &[usize],
    out_targets: &[usize],
    in_offsets: &[usize],
    in_sources: &[usize],
    kernel: u64,
    parameter: i64,
    claim: &[u8],
    res: &mut [i64],
    claimed: &mut [i64],
    first: &mut [usize],
    second: &mut [usize],
    third: &mut [usize],
    lines: &mut [usize],
) -> u64
    ensures { judge_told result res.new claimed.new first.new second.new third.new
        lines.new
        ≡ judge_tells (verdict_call most_lines
        (lent (stated_size vertices arcs) ids.now out_offsets.now out_targets.now
        in_offsets.now in_sources.now)
        kernel parameter claim.now
        res.old claimed.old first.old second.old third.old
        lines.old) }
{
    let g = graph_of(
        vertices,
        arcs,
        ids,
        out_offsets,
        out_targets,
        in_offsets,
        in_sources,
    );
    let judged = verdict(
        g,
        kernel as usize,
        parameter,
        claim,
        res,
        claimed,
        first,
        second,
        third,
        lines,
    );
    refusal_code(as_refusal(judged))
}

// Whether the rules number this mode and this kernel.
#[tactic(auto, unfolding(crate::specs::Host::is_known))]
fn is_known(mode: u64, kernel: u64) -> bool
    ensures { result ≡ is_known mode kernel }
{
    mode <= 1 && 1 <= kernel && kernel <= 4
}

// The verdict on a graph of desk size, with areas of its own.
fn judge_loaded(g: Lent, kernel: u64, parameter: i64, claim: &[u8]) -> u64
    ensures { result
        ≡ host_code (as_refusal (desk_judged
        (standing g.entry)
        kernel parameter claim.now)) }
{
    let mut result = [0i64; DESK_VERTICES];
    let mut claimed = [0i64; DESK_VERTICES];
    let mut first = [0usize; DESK_VERTICES];
    let mut second = [0usize; DESK_VERTICES];
    let mut third = [0usize; DESK_VERTICES];
    let mut lines = [0usize; DESK_VERTICES];
    let judged = verdict_within(
        DESK_LINES,
        g,
        kernel as usize,
        parameter,
        claim,
        &mut result,
        &mut claimed,
        &mut first,
        &mut second,
        &mut third,
        &mut lines,
    );
    host_code(as_refusal(judged))
}

// The verdict on the bytes of three files, at desk limits.
#[unsafe(no_mangle)]
pub extern "C" fn trace_verdict(
    vertices: &[u8],
    edges: &[u8],
    claim: &[u8],
    mode: u64,
    kernel: u64,
    parameter: i64,
) -> u64
    ensures { result ≡ host_verdict vertices.now edges.now claim.now mode kernel parameter }
{
    if !is_known(mode, kernel) {
        return host_code(Refusal::plain(UNKNOWN_NUMBER));
    }
    let limits = Limits {
        vertices: DESK_VERTICES,
        edges: DESK_EDGES,
    };
    let mut ids = [0i64; DESK_VERTICES];
    let mut out_offsets = [0usize; DESK_VERTICES + 1];
    let mut out_targets = [0usize; 2 * DESK_EDGES];
    let mut in_offsets = [0usize; DESK_VERTICES + 1];
    let mut in_sources = [0usize; 2 * DESK_EDGES];
    let loaded = load_within(
        limits,
        mode as usize,
        vertices,
        edges,
        &mut ids,
        &mut out_offsets,
        &mut out_targets,
        &mut in_offsets,
        &mut in_sources,
    );
    match loaded {
        Err(r) => host_code(r),
        Ok(size) => {
            let g = graph_of(
                size.vertices,
                size.arcs,
                &ids,
                &out_offsets,
                &out_targets,
                &in_offsets,
                &in_sources,
            );
            judge_loaded(g, kernel, parameter, claim)
        }
    }
}
