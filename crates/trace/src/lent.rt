// The graph that a host lends: its counts and five areas, each a parameter of its own, since that is what C passes.
ghost use Rattle.std.specs.Prelude.{◌≡◌};
ghost use Rattle.graph.specs.Sound.{lent, standing};
ghost use Rattle.trace.specs.Kernels.{stated_size};

use graph::{Lent, Size, Way};

// The graph of these counts in these areas.
pub(crate) fn graph_of<'a>(
    vertices: usize,
    arcs: usize,
    ids: &'a [i64],
    out_offsets: &'a [usize],
    out_targets: &'a [usize],
    in_offsets: &'a [usize],
    in_sources: &'a [usize],
) -> Lent<'a>
    ensures { standing result
        ≡ lent (stated_size vertices arcs) ids.now out_offsets.now out_targets.now
        in_offsets.now in_sources.now }
{
    Lent {
        size: Size { vertices, arcs },
        ids,
        outward: Way {
            offsets: out_offsets,
            targets: out_targets,
        },
        inward: Way {
            offsets: in_offsets,
            targets: in_sources,
        },
    }
}
