// Layer graph. One way of a graph from the other: the edges that an offsets and a target area hold, stored by their other ends.
#![tactic(auto)]

ghost use Rattle.std.specs.Prelude.{◌≡◌};
ghost use Rattle.graph.specs.Part.{part_of};

pub mod spread;
pub mod sums;
pub mod weigh;

use graph::Way;
use graph::part::part;

// The edges that one way of a graph holds: how many vertices it has, and whether each edge stands for two arcs.
// Stays: `undirected` as a flag, here and in `spread` and `weigh`. It says what the edges are, as the definitions do, and no step to run.
#[derive(Clone, Copy)]
pub struct HeldEdges<'a> {
    pub way: Way<'a>,
    pub vertices: usize,
    pub undirected: bool,
}

impl<'a> HeldEdges<'a> {
    // The other ends of u's edges.
    pub(crate) fn part(self, u: usize) -> &'a [usize]
        ensures { result.now ≡ part_of self.entry.vertices self.entry.way.offsets.now self.entry.way.targets.now u }
    {
        part(self.way.targets, self.way.offsets, self.vertices, u)
    }
}
