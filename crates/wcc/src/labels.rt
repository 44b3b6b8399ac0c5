// The labels of all vertices, on areas that have one place a vertex.
ghost use Rattle.std.specs.Prelude.{◌≡◌, length};
ghost use Rattle.graph.specs.Part.{part_of};
ghost use Rattle.wcc.specs.Component.{labels};
ghost use Rattle.wcc.specs.Steps.{noted, marked, taken_over, Within, Fitting, Marking};

use crate::groups::find_heads;
use graph::Way;

// Each head gets the smallest identifier of its group: vertices write theirs from the last to the first.
fn mark(heads: &[usize], ids: &[i64], res: &mut [i64])
    requires { Marking heads.now ids.now res.old }
    ensures { res.new
        ≡ marked (noted heads.now) ids.now (length res.old) res.old }
{
    for v in (0..res.len()).rev() {
        res[heads[v]] = ids[v];
    }
}

// Each vertex takes over its head's label.
fn take_over(heads: &[usize], res: &mut [i64])
    requires { (Within (length res.old) (noted heads.now)) × (length heads.now ≡ length res.old) }
    ensures { res.new ≡ taken_over (noted heads.now) (length res.old) res.old }
{
    for (v, h) in heads.iter().enumerate() {
        res[v] = res[*h];
    }
}

// The labels of n vertices. `res` holds the book until every vertex's head is noted in `heads`, which keeps them.
pub(crate) fn label(n: usize, way: Way, ids: &[i64], res: &mut [i64], heads: &mut [usize])
    requires { Fitting n (part_of n way.offsets.now way.targets.now) ids.now res.old heads.old }
    ensures { res.new ≡ labels n (part_of n way.entry.offsets.now way.entry.targets.now) ids.now }
{
    find_heads(n, way, res, heads);
    mark(heads, ids, res);
    take_over(heads, res);
}
