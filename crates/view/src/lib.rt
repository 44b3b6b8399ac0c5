// Layer graph. The neighbour view, and the same for whoever holds the target area itself.
#![tactic(auto)]

ghost use Rattle.std.specs.Prelude.{◌≡◌};
ghost use Rattle.graph.specs.Part.{part_of};

pub mod held;

use crate::held::{of_vertex, view_of};

// The part of vertex v of n, answered by a view of the targets: a caller takes and gives plain slices.
pub fn neighbours<'a, 'o>(
    targets: &'a [usize],
    offsets: &'o [usize],
    n: usize,
    v: usize,
) -> &'a [usize]
    ensures { result.now ≡ part_of n offsets.now targets.now v }
{
    of_vertex(view_of(targets), offsets, n, v)
}
