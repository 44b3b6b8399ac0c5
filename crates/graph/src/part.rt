// One vertex's part of a target area.
ghost use Rattle.std.specs.Prelude.{◌≡◌};
ghost use Rattle.graph.specs.Part.{part_of};

use crate::Way;

// The part of vertex v of n, or an empty part where it has none.
pub fn part<'a, 'o>(targets: &'a [usize], offsets: &'o [usize], n: usize, v: usize) -> &'a [usize]
    ensures { result.now ≡ part_of n offsets.now targets.now v }
{
    if n <= v {
        return &targets[0..0];
    }
    if offsets.len() <= v + 1 {
        return &targets[0..0];
    }
    let from = offsets[v];
    let to = offsets[v + 1];
    if to < from {
        return &targets[0..0];
    }
    if targets.len() < to {
        return &targets[0..0];
    }
    &targets[from..to]
}

impl<'a> Way<'a> {
    // The part of vertex v of n in this way.
    pub(crate) fn part(self, n: usize, v: usize) -> &'a [usize]
        ensures { result.now ≡ part_of n self.entry.offsets.now self.entry.targets.now v }
    {
        part(self.targets, self.offsets, n, v)
    }
}
