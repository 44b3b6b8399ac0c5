// The neighbour view: it holds the lent target area and answers one vertex's part of it.
ghost use Rattle.std.specs.Prelude.{◌≡◌};
ghost use Rattle.graph.specs.Part.{part_of};

use graph::part::part;

// The lent target area.
#[derive(Clone, Copy)]
pub struct Neighbours<'a> {
    pub targets: &'a [usize],
}

// The view of an area.
pub fn view_of<'a>(targets: &'a [usize]) -> Neighbours<'a>
    ensures { result.targets ≡ targets.entry }
{
    Neighbours { targets }
}

// The part of vertex v of n, or an empty part where it has none.
pub fn of_vertex<'a, 'o>(
    view: Neighbours<'a>,
    offsets: &'o [usize],
    n: usize,
    v: usize,
) -> &'a [usize]
    ensures { result.now ≡ part_of n offsets.now view.entry.targets.now v }
{
    part(view.targets, offsets, n, v)
}
