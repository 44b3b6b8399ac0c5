// The four kernels on a graph that the host lends: its counts and five areas.
ghost use Rattle.std.specs.Prelude.{◌≡◌};
ghost use Rattle.graph.specs.Sound.{lent};
ghost use Rattle.bfs.specs.Call.{bfs_call};
ghost use Rattle.wcc.specs.Call.{wcc_call};
ghost use Rattle.cdlp.specs.Call.{cdlp_call};
ghost use Rattle.lcc.specs.Call.{lcc_call};
ghost use Rattle.trace.specs.Kernels.{stated_size, bfs_told, bfs_tells, wcc_told, wcc_tells, cdlp_told, cdlp_tells, lcc_told, lcc_tells};

use crate::code::code;
use crate::lent::graph_of;
use bfs::bfs;
use cdlp::cdlp;
use lcc::lcc;
use wcc::wcc;

// BFS from a root: depths in `depth`.
#[unsafe(no_mangle)]
pub extern "C" fn trace_bfs(
    vertices: usize,
    arcs: usize,
    ids: &[i64],
    out_offsets: &[usize],
    out_targets: &[usize],
    in_offsets: &[usize],
    in_sources: &[usize],
    root: i64,
    depth: &mut [i64],
    queue: &mut [usize],
) -> u64
    ensures { bfs_told result depth.new queue.new
        ≡ bfs_tells (bfs_call
        (lent (stated_size vertices arcs) ids.now out_offsets.now out_targets.now
        in_offsets.now in_sources.now)
        root depth.old queue.old) }
{
    let g = graph_of(
        vertices,
        arcs,
        ids,
        out_offsets,
        out_targets,
        in_offsets,
        in_sources,
    );
    code(bfs(g, root, depth, queue))
}

// WCC: the components' labels in `result`.
#[unsafe(no_mangle)]
pub extern "C" fn trace_wcc(
    vertices: usize,
    arcs: usize,
    ids: &[i64],
    out_offsets: &[usize],
    out_targets: &[usize],
    in_offsets: &[usize],
    in_sources: &[usize],
    res: &mut [i64],
    heads: &mut [usize],
) -> u64
    ensures { wcc_told result res.new heads.new
        ≡ wcc_tells (wcc_call
        (lent (stated_size vertices arcs) ids.now out_offsets.now out_targets.now
        in_offsets.now in_sources.now)
        res.old heads.old) }
{
    let g = graph_of(
        vertices,
        arcs,
        ids,
        out_offsets,
        out_targets,
        in_offsets,
        in_sources,
    );
    code(wcc(g, res, heads))
}

// CDLP of so many iterations: labels in `result`.
#[unsafe(no_mangle)]
pub extern "C" fn trace_cdlp(
    vertices: usize,
    arcs: usize,
    ids: &[i64],
    out_offsets: &[usize],
    out_targets: &[usize],
    in_offsets: &[usize],
    in_sources: &[usize],
    iterations: i64,
    res: &mut [i64],
    labels: &mut [usize],
    next: &mut [usize],
    counts: &mut [usize],
) -> u64
    ensures { cdlp_told result res.new labels.new next.new counts.new
        ≡ cdlp_tells (cdlp_call
        (lent (stated_size vertices arcs) ids.now out_offsets.now out_targets.now
        in_offsets.now in_sources.now)
        iterations res.old labels.old next.old counts.old) }
{
    let g = graph_of(
        vertices,
        arcs,
        ids,
        out_offsets,
        out_targets,
        in_offsets,
        in_sources,
    );
    code(cdlp(g, iterations, res, labels, next, counts))
}

// LCC: coefficients in `numerators` and `denominators`.
#[unsafe(no_mangle)]
pub extern "C" fn trace_lcc(
    vertices: usize,
    arcs: usize,
    ids: &[i64],
    out_offsets: &[usize],
    out_targets: &[usize],
    in_offsets: &[usize],
    in_sources: &[usize],
    numerators: &mut [usize],
    denominators: &mut [usize],
    work: &mut [usize],
) -> u64
    ensures { lcc_told result numerators.new denominators.new work.new
        ≡ lcc_tells (lcc_call
        (lent (stated_size vertices arcs) ids.now out_offsets.now out_targets.now
        in_offsets.now in_sources.now)
        numerators.old denominators.old work.old) }
{
    let g = graph_of(
        vertices,
        arcs,
        ids,
        out_offsets,
        out_targets,
        in_offsets,
        in_sources,
    );
    code(lcc(g, numerators, denominators, work))
}
