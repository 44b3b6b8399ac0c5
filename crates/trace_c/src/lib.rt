// Layer host. The calls for a C or Rust host, exported: each is the call of that name in `trace`, with its clauses. A library exports
// nothing by itself, so hosts link the archive of this crate (`tools/library`).
// Stays: what C calls takes each area, mode and kernel as a parameter of its own, here and in `trace`.
#![tactic(auto)]

ghost use Rattle.std.specs.Prelude.{◌≡◌, length};
ghost use Rattle.load.specs.Load.{room_of, load_call, library};
ghost use Rattle.trace.specs.Load.{load_told, load_tells};
ghost use Rattle.graph.specs.Sound.{lent};
ghost use Rattle.bfs.specs.Call.{bfs_call};
ghost use Rattle.trace.specs.Kernels.{stated_size, bfs_told, bfs_tells, wcc_told, wcc_tells, cdlp_told, cdlp_tells, lcc_told, lcc_tells};
ghost use Rattle.wcc.specs.Call.{wcc_call};
ghost use Rattle.cdlp.specs.Call.{cdlp_call};
ghost use Rattle.lcc.specs.Call.{lcc_call};
ghost use Rattle.book.specs.Rules.{open_book, join_book, head_of, same_group, group_size, group_count, step_limit};
ghost use Rattle.book.specs.One.{one_book, one};
ghost use Rattle.trace.specs.Code.{nothing, coded};
ghost use Rattle.trace.specs.Book.{book_told, book_tells, join_value, head_value, same_value, reading_value};
ghost use Rattle.verdicts.specs.Call.{most_lines, verdict_call};
ghost use Rattle.trace.specs.Verdict.{judge_told, judge_tells};
ghost use Rattle.trace.specs.Host.{host_verdict};

use trace::{four_kernels, group_book, judging, loading};

#[unsafe(no_mangle)]
pub extern "C" fn trace_load(
    mode: u64,
    vertices: &[u8],
    edges: &[u8],
    ids: &mut [i64],
    out_offsets: &mut [usize],
    out_targets: &mut [usize],
    in_offsets: &mut [usize],
    in_sources: &mut [usize],
) -> u64
    ensures { load_told result ids.new out_offsets.new out_targets.new in_offsets.new
        in_sources.new
        ≡ load_tells (load_call library mode
        (room_of (length ids.old) (length out_offsets.old) (length out_targets.old)
        (length in_offsets.old) (length in_sources.old))
        vertices.now edges.now) }
{
    loading::trace_load(
        mode,
        vertices,
        edges,
        ids,
        out_offsets,
        out_targets,
        in_offsets,
        in_sources,
    )
}

// BFS from a root: depths in `depth`.
#[unsafe(no_mangle)]
pub extern "C" fn trace_bfs(
    vertices: usize,
    arcs: usize,
    ids: &[i64],
    out_offsets: &[usize],
    out_targets: &[usize],
    in_offsets: &[usize],
    in_sources: &[usize],
    root: i64,
    depth: &mut [i64],
    queue: &mut [usize],
) -> u64
    ensures { bfs_told result depth.new queue.new
        ≡ bfs_tells (bfs_call
        (lent (stated_size vertices arcs) ids.now out_offsets.now out_targets.now
        in_offsets.now in_sources.now)
        root depth.old queue.old) }
{
    four_kernels::trace_bfs(
        vertices,
        arcs,
        ids,
        out_offsets,
        out_targets,
        in_offsets,
        in_sources,
        root,
        depth,
        queue,
    )
}

// WCC: the components' labels in `result`.
#[unsafe(no_mangle)]
pub extern "C" fn trace_wcc(
    vertices: usize,
    arcs: usize,
    ids: &[i64],
    out_offsets: &[usize],
    out_targets: &[usize],
    in_offsets: &[usize],
    in_sources: &[usize],
    res: &mut [i64],
    heads: &mut [usize],
) -> u64
    ensures { wcc_told result res.new heads.new
        ≡ wcc_tells (wcc_call
        (lent (stated_size vertices arcs) ids.now out_offsets.now out_targets.now
        in_offsets.now in_sources.now)
        res.old heads.old) }
{
    four_kernels::trace_wcc(
        vertices,
        arcs,
        ids,
        out_offsets,
        out_targets,
        in_offsets,
        in_sources,
        res,
        heads,
    )
}

// CDLP of so many iterations: labels in `result`.
#[unsafe(no_mangle)]
pub extern "C" fn trace_cdlp(
    vertices: usize,
    arcs: usize,
    ids: &[i64],
    out_offsets: &[usize],
    out_targets: &[usize],
    in_offsets: &[usize],
    in_sources: &[usize],
    iterations: i64,
    res: &mut [i64],
    labels: &mut [usize],
    next: &mut [usize],
    counts: &mut [usize],
) -> u64
    ensures { cdlp_told result res.new labels.new next.new counts.new
        ≡ cdlp_tells (cdlp_call
        (lent (stated_size vertices arcs) ids.now out_offsets.now out_targets.now
        in_offsets.now in_sources.now)
        iterations res.old labels.old next.old counts.old) }
{
    four_kernels::trace_cdlp(
        vertices,
        arcs,
        ids,
        out_offsets,
        out_targets,
        in_offsets,
        in_sources,
        iterations,
        res,
        labels,
        next,
        counts,
    )
}

// LCC: coefficients in `numerators` and `denominators`.
#[unsafe(no_mangle)]
pub extern "C" fn trace_lcc(
    vertices: usize,
    arcs: usize,
    ids: &[i64],
    out_offsets: &[usize],
    out_targets: &[usize],
    in_offsets: &[usize],
    in_sources: &[usize],
    numerators: &mut [usize],
    denominators: &mut [usize],
    work: &mut [usize],
) -> u64
    ensures { lcc_told result numerators.new denominators.new work.new
        ≡ lcc_tells (lcc_call
        (lent (stated_size vertices arcs) ids.now out_offsets.now out_targets.now
        in_offsets.now in_sources.now)
        numerators.old denominators.old work.old) }
{
    four_kernels::trace_lcc(
        vertices,
        arcs,
        ids,
        out_offsets,
        out_targets,
        in_offsets,
        in_sources,
        numerators,
        denominators,
        work,
    )
}

#[unsafe(no_mangle)]
pub extern "C" fn trace_book_open(entries: &mut [i64]) -> u64
    ensures { book_told result entries.new ≡ book_tells nothing (open_book one_book entries.old) }
{
    group_book::trace_book_open(entries)
}

#[unsafe(no_mangle)]
pub extern "C" fn trace_book_join(entries: &mut [i64], u: usize, v: usize) -> u64
    ensures { book_told result entries.new ≡ book_tells join_value (join_book one_book entries.old u v) }
{
    group_book::trace_book_join(entries, u, v)
}

#[unsafe(no_mangle)]
pub extern "C" fn trace_book_head(entries: &[i64], v: usize) -> u64
    ensures { result ≡ coded (head_of (one entries.now) v) head_value }
{
    group_book::trace_book_head(entries, v)
}

#[unsafe(no_mangle)]
pub extern "C" fn trace_book_same(entries: &[i64], u: usize, v: usize) -> u64
    ensures { result ≡ coded (same_group (one entries.now) u v) same_value }
{
    group_book::trace_book_same(entries, u, v)
}

#[unsafe(no_mangle)]
pub extern "C" fn trace_book_size(entries: &[i64], v: usize) -> u64
    ensures { result ≡ coded (group_size (one entries.now) v) reading_value }
{
    group_book::trace_book_size(entries, v)
}

#[unsafe(no_mangle)]
pub extern "C" fn trace_book_count(entries: &[i64]) -> u64
    ensures { result ≡ coded (group_count (one entries.now)) reading_value }
{
    group_book::trace_book_count(entries)
}

#[unsafe(no_mangle)]
pub extern "C" fn trace_book_limit(entries: &[i64], v: usize) -> u64
    ensures { result ≡ coded (step_limit (one entries.now) v) reading_value }
{
    group_book::trace_book_limit(entries, v)
}

// The verdict on a graph that the host lends, at library limits.
#[unsafe(no_mangle)]
pub extern "C" fn trace_judge(
    vertices: usize,
    arcs: usize,
    ids: &[i64],
    out_offsets: &[usize],
    out_targets: &[usize],
    in_offsets: &[usize],
    in_sources: &[usize],
    kernel: u64,
    parameter: i64,
    claim: &[u8],
    res: &mut [i64],
    claimed: &mut [i64],
    first: &mut [usize],
    second: &mut [usize],
    third: &mut [usize],
    lines: &mut [usize],
) -> u64
    ensures { judge_told result res.new claimed.new first.new second.new third.new
        lines.new
        ≡ judge_tells (verdict_call most_lines
        (lent (stated_size vertices arcs) ids.now out_offsets.now out_targets.now
        in_offsets.now in_sources.now)
        kernel parameter claim.now
        res.old claimed.old first.old second.old third.old
        lines.old) }
{
    judging::trace_judge(
        vertices,
        arcs,
        ids,
        out_offsets,
        out_targets,
        in_offsets,
        in_sources,
        kernel,
        parameter,
        claim,
        res,
        claimed,
        first,
        second,
        third,
        lines,
    )
}

// The verdict on the bytes of three files, at desk limits.
#[unsafe(no_mangle)]
pub extern "C" fn trace_verdict(
    vertices: &[u8],
    edges: &[u8],
    claim: &[u8],
    mode: u64,
    kernel: u64,
    parameter: i64,
) -> u64
    ensures { result ≡ host_verdict vertices.now edges.now claim.now mode kernel parameter }
{
    judging::trace_verdict(vertices, edges, claim, mode, kernel, parameter)
}
