// Layer graph. A graph from the bytes of its vertex file and its edge file, in five lent areas: identifiers, outward offsets and targets,
// inward offsets and sources.
#![tactic(auto)]

mod fill;

ghost use Rattle.std.specs.Prelude.{◌≡◌};
ghost use Rattle.basis.specs.Refusal.{said};
ghost use Rattle.load.specs.Load.{room_in, outcome, load_call, library, capped};
ghost use Rattle.load.specs.Steps.{Emptied};

use crate::fill::fill;
use basis::Refusal;
use basis::area::clear;
use basis::limits::{MOST_EDGES, MOST_VERTICES};
use graph::Size;

// How many lines a vertex file and an edge file may have.
#[derive(Clone, Copy, Debug, PartialEq, Eq)]
pub struct Limits {
    pub vertices: usize,
    pub edges: usize,
}

// Five areas are cleared.
// Stays: the five lent areas apart. A struct of five `&mut` slices needs a ghost name for each in every function that it is passed to.
fn clear_all(
    ids: &mut [i64],
    out_offsets: &mut [usize],
    out_targets: &mut [usize],
    in_offsets: &mut [usize],
    in_sources: &mut [usize],
)
    ensures { Emptied ids.old out_offsets.old out_targets.old in_offsets.old
        in_sources.old
        ids.new out_offsets.new out_targets.new in_offsets.new
        in_sources.new }
{
    clear(ids);
    clear(out_offsets);
    clear(out_targets);
    clear(in_offsets);
    clear(in_sources);
}

// The limits of a load: one above the library's counts as the library's.
fn capped(limits: Limits) -> Limits
    ensures { result ≡ capped limits }
{
    Limits {
        vertices: limits.vertices.min(MOST_VERTICES),
        edges: limits.edges.min(MOST_EDGES),
    }
}

// The graph of two files whose lines are at most so many, and no more than the library's limits allow: `mode` is 0 for undirected, 1
// for directed.
pub fn load_within(
    limits: Limits,
    mode: usize,
    vertices: &[u8],
    edges: &[u8],
    ids: &mut [i64],
    out_offsets: &mut [usize],
    out_targets: &mut [usize],
    in_offsets: &mut [usize],
    in_sources: &mut [usize],
) -> Result<Size, Refusal>
    ensures { outcome (said result) ids.new out_offsets.new out_targets.new in_offsets.new
        in_sources.new
        ≡ load_call (capped limits) mode
        (room_in ids.old out_offsets.old out_targets.old in_offsets.old
        in_sources.old)
        vertices.now edges.now }
{
    let filled = fill(
        capped(limits),
        mode,
        vertices,
        edges,
        ids,
        out_offsets,
        out_targets,
        in_offsets,
        in_sources,
    );
    if filled.is_err() {
        clear_all(ids, out_offsets, out_targets, in_offsets, in_sources);
    }
    filled
}

// The same with the library's limits.
pub fn load(
    mode: usize,
    vertices: &[u8],
    edges: &[u8],
    ids: &mut [i64],
    out_offsets: &mut [usize],
    out_targets: &mut [usize],
    in_offsets: &mut [usize],
    in_sources: &mut [usize],
) -> Result<Size, Refusal>
    ensures { outcome (said result) ids.new out_offsets.new out_targets.new in_offsets.new
        in_sources.new
        ≡ load_call library mode
        (room_in ids.old out_offsets.old out_targets.old in_offsets.old
        in_sources.old)
        vertices.now edges.now }
{
    load_within(
        Limits {
            vertices: MOST_VERTICES,
            edges: MOST_EDGES,
        },
        mode,
        vertices,
        edges,
        ids,
        out_offsets,
        out_targets,
        in_offsets,
        in_sources,
    )
}
