// The graph of two files in five areas: the identifiers as they are read, then the edges, outward and inward.
ghost use Rattle.std.specs.Prelude.{◌≡◌, true, false, leb};
ghost use Rattle.basis.specs.Refusal.{said, unknown_number, check, gives};
ghost use Rattle.load.specs.Load.{is_undirected, vertex_room, room_in};
ghost use Rattle.load.specs.Steps.{Storing, arranged_call, arranged_left, filled_call, filled_left, filled_load, outcome_left};

use crate::Limits;
use basis::Refusal;
use basis::area::copy;
use basis::refusal::{NO_ROOM, UNKNOWN_NUMBER};
use graph::{Size, Way};
use lists::edges::read_edges;
use lists::vertices::read_vertices;
use store::HeldEdges;
use store::spread::{lacks, spread};
use store::sums::sum_up;

// The edges of a file: stored by their first ends in one pair of areas as they are read, and their arcs the other way in the other pair.
// Stays: `undirected` as a flag, here and below. It says what the file's edges are, as the definitions do.
fn arrange(
    s: &[u8],
    most: usize,
    undirected: bool,
    ids: &[i64],
    offsets: &mut [usize],
    targets: &mut [usize],
    back: &mut [usize],
    sources: &mut [usize],
) -> Result<usize, Refusal>
    requires { Storing ids.now offsets.old back.old }
    ensures { arranged_left result offsets.new targets.new back.new sources.new
        ≡ arranged_call undirected most ids.now s.now
        offsets.old targets.old back.old sources.old }
{
    let n = ids.len();
    let m = read_edges(s, most, undirected, ids, offsets, targets)?;
    if lacks(targets.len(), m, undirected) || lacks(sources.len(), m, undirected) {
        return Err(Refusal::plain(NO_ROOM));
    }
    sum_up(offsets, n + 1);
    let way = Way { offsets, targets };
    let edges = HeldEdges {
        way,
        vertices: n,
        undirected,
    };
    spread(back, sources, edges);
    Ok(m)
}

// The arcs of a directed edge file: outward as they are read, inward the other way round.
fn fill_directed(
    s: &[u8],
    most: usize,
    ids: &[i64],
    out_offsets: &mut [usize],
    out_targets: &mut [usize],
    in_offsets: &mut [usize],
    in_sources: &mut [usize],
) -> Result<Size, Refusal>
    requires { Storing ids.now out_offsets.old in_offsets.old }
    ensures { filled_left result out_offsets.new out_targets.new in_offsets.new in_sources.new
        ≡ filled_call false most ids.now s.now
        out_offsets.old out_targets.old in_offsets.old in_sources.old }
{
    let vertices = ids.len();
    let arcs = arrange(
        s,
        most,
        false,
        ids,
        out_offsets,
        out_targets,
        in_offsets,
        in_sources,
    )?;
    Ok(Size { vertices, arcs })
}

// The arcs of an undirected edge file: read into the inward areas, both arcs of every edge stored outward, and the same inward.
fn fill_undirected(
    s: &[u8],
    most: usize,
    ids: &[i64],
    out_offsets: &mut [usize],
    out_targets: &mut [usize],
    in_offsets: &mut [usize],
    in_sources: &mut [usize],
) -> Result<Size, Refusal>
    requires { Storing ids.now out_offsets.old in_offsets.old }
    ensures { filled_left result out_offsets.new out_targets.new in_offsets.new in_sources.new
        ≡ filled_call true most ids.now s.now
        out_offsets.old out_targets.old in_offsets.old in_sources.old }
{
    let vertices = ids.len();
    let m = arrange(
        s,
        most,
        true,
        ids,
        in_offsets,
        in_sources,
        out_offsets,
        out_targets,
    )?;
    let arcs = m + m;
    copy(out_offsets, vertices + 1, in_offsets);
    copy(out_targets, arcs, in_sources);
    Ok(Size { vertices, arcs })
}

// The arcs of an edge file.
fn store_edges(
    s: &[u8],
    most: usize,
    undirected: bool,
    ids: &[i64],
    out_offsets: &mut [usize],
    out_targets: &mut [usize],
    in_offsets: &mut [usize],
    in_sources: &mut [usize],
) -> Result<Size, Refusal>
    requires { Storing ids.now out_offsets.old in_offsets.old }
    ensures { filled_left result out_offsets.new out_targets.new in_offsets.new in_sources.new
        ≡ filled_call undirected most ids.now s.now
        out_offsets.old out_targets.old in_offsets.old in_sources.old }
{
    if undirected {
        return fill_undirected(
            s,
            most,
            ids,
            out_offsets,
            out_targets,
            in_offsets,
            in_sources,
        );
    }
    fill_directed(
        s,
        most,
        ids,
        out_offsets,
        out_targets,
        in_offsets,
        in_sources,
    )
}

// Whether areas of these lengths have places for n identifiers and their offsets.
fn has_places(n: usize, ids: usize, out_offsets: usize, in_offsets: usize) -> bool
    ensures { result ≡ vertex_room ids out_offsets in_offsets n }
{
    n <= ids && n < out_offsets && n < in_offsets
}

// Whether a load of that mode is undirected.
fn is_undirected(mode: usize) -> Result<bool, Refusal>
    ensures { said result ≡ check (leb mode 1) unknown_number (gives (is_undirected mode)) }
{
    match mode {
        0 => Ok(true),
        1 => Ok(false),
        _ => Err(Refusal::plain(UNKNOWN_NUMBER)),
    }
}

// The graph of two files in five areas; where it is refused, what stands in them is of no use.
pub(crate) fn fill(
    limits: Limits,
    mode: usize,
    vertices: &[u8],
    edges: &[u8],
    ids: &mut [i64],
    out_offsets: &mut [usize],
    out_targets: &mut [usize],
    in_offsets: &mut [usize],
    in_sources: &mut [usize],
) -> Result<Size, Refusal>
    ensures { outcome_left result ids.new out_offsets.new out_targets.new in_offsets.new
        in_sources.new
        ≡ filled_load limits mode
        (room_in ids.old out_offsets.old out_targets.old in_offsets.old
        in_sources.old)
        vertices.now edges.now }
{
    let undirected = is_undirected(mode)?;
    let n = read_vertices(vertices, limits.vertices, ids)?;
    if !has_places(n, ids.len(), out_offsets.len(), in_offsets.len()) {
        return Err(Refusal::plain(NO_ROOM));
    }
    store_edges(
        edges,
        limits.edges,
        undirected,
        &ids[..n],
        out_offsets,
        out_targets,
        in_offsets,
        in_sources,
    )
}
