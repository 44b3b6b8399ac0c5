// The search, by Dijkstra's method over the tree of winners: each vertex that is reached is served once, the nearest first. `dist` holds
// the distances that are settled, `key` those of the vertices that wait, and both hold infinity elsewhere.
ghost use Rattle.std.specs.Prelude.{◌≡◌, ◌<◌, length, get_or, set, replicate};
ghost use Rattle.basis.specs.Area.{infinity};
ghost use Rattle.graph.specs.Part.{part_of};
ghost use Rattle.graph.specs.Weights.{legs, legs_of};
ghost use Rattle.sssp.specs.Distance.{distances, as_signed};
ghost use Rattle.sssp.specs.Tree.{Played, None, Replayed};
ghost use Rattle.sssp.specs.Steps.{lowered, walked, settled, served, Nearest, WeighedPart, WeighedAll, Lent, AllSigned};

use crate::tree::{build, rekey, winner};
use basis::area::clear;
use graph::Way;
use view::neighbours;

// `Area.infinity`, as the working areas hold it.
// Stays: a number that says that a vertex has no distance. A lent area has a place of one number for each vertex, no room for an Option.
const FAR: usize = 9223372036854775807;

// Vertex w is met at distance d: where it is not known as near, d is its key.
fn relax(dist: &[usize], key: &mut [usize], tree: &mut [usize], w: usize, d: usize)
    requires played { Played None key.old tree.old }
    requires w_in_bounds { (w < length key.old) × (length dist.now ≡ length key.old) }
    ensures { Replayed (lowered dist.now w d key.old) key.new tree.new }
{
    if d < dist[w].min(key[w]) {
        rekey(key, tree, w, d);
    }
}

// The arcs of a vertex at distance d are walked in order.
fn walk(
    next: &[usize],
    cost: &[usize],
    dist: &[usize],
    key: &mut [usize],
    tree: &mut [usize],
    d: usize,
)
    requires played { Played None key.old tree.old }
    requires weighed_part { WeighedPart (length key.old) next.now cost.now }
    requires dist_len { (length dist.now ≡ length key.old) × (d < infinity) }
    ensures { Replayed (walked dist.now d (legs next.now cost.now) key.old)
        key.new tree.new }
{
    for (&w, &c) in next.iter().zip(cost) {
        relax(dist, key, tree, w, d + c);
    }
}

// Vertex u is settled at its key d, and its arcs are walked.
fn serve(
    next: &[usize],
    cost: &[usize],
    u: usize,
    dist: &mut [usize],
    key: &mut [usize],
    tree: &mut [usize],
)
    requires played { Played None key.old tree.old }
    requires weighed_part { WeighedPart (length key.old) next.now cost.now }
    requires dist_len { (length dist.old ≡ length key.old) × (u < length key.old) × (get_or key.old u 0 < infinity) }
    ensures { (dist.new ≡ settled u dist.old key.old)
        × Replayed (served (legs next.now cost.now) u dist.old key.old)
        key.new tree.new }
{
    let d = key[u];
    dist[u] = d;
    rekey(key, tree, u, FAR);
    walk(next, cost, dist, key, tree, d);
}

// The root alone waits, at distance 0.
fn start(root: usize, dist: &mut [usize], key: &mut [usize], tree: &mut [usize])
    requires { (root < length key.old) × (length tree.old ≡ length key.old) }
    ensures { (dist.new ≡ replicate (length dist.old) infinity)
        × Replayed (set (replicate (length key.old) infinity) root 0) key.new tree.new }
{
    dist.fill(FAR);
    key.fill(FAR);
    key[root] = 0;
    clear(tree);
    build(key, tree);
}

// The nearest of the vertices that wait, where one waits.
fn nearest(key: &[usize], tree: &[usize]) -> Option<usize>
    requires played { Played None key.now tree.now }
    requires key_len { 0 < length key.now }
    ensures { Nearest key.now tree.now result }
{
    let u = winner(tree, 1);
    if key[u] < FAR { Some(u) } else { None }
}

// The whole search: while a vertex waits that is reached, the nearest one is served.
fn search(
    out: Way,
    weights: &[usize],
    root: usize,
    dist: &mut [usize],
    key: &mut [usize],
    tree: &mut [usize],
)
    requires weighed_all { WeighedAll (length dist.old) (part_of (length dist.old) out.offsets.now out.targets.now)
        (part_of (length dist.old) out.offsets.now weights.now) }
    requires lent { Lent root dist.old key.old tree.old }
    ensures { dist.new
        ≡ distances (length dist.old)
        (legs_of (length dist.old) out.entry.offsets.now out.entry.targets.now weights.now) root }
{
    let n = dist.len();
    start(root, dist, key, tree);
    // Stays: which vertices wait, and so whether one is left, changes at each turn.
    while let Some(u) = nearest(key, tree) {
        let next = neighbours(out.targets, out.offsets, n, u);
        let cost = neighbours(weights, out.offsets, n, u);
        serve(next, cost, u, dist, key, tree);
    }
}

// The distances, as a result area holds them.
fn sign(dist: &[usize], distance: &mut [i64])
    requires distance_len { length distance.old ≡ length dist.now }
    requires all_signed { AllSigned dist.now }
    ensures { distance.new ≡ as_signed (length dist.now) dist.now }
{
    for (v, place) in distance.iter_mut().enumerate() {
        *place = dist[v] as i64;
    }
}

// The distances from the root, in areas of a place for each vertex.
pub(crate) fn measure(
    out: Way,
    weights: &[usize],
    root: usize,
    distance: &mut [i64],
    dist: &mut [usize],
    key: &mut [usize],
    tree: &mut [usize],
)
    requires weighed_all { WeighedAll (length dist.old) (part_of (length dist.old) out.offsets.now out.targets.now)
        (part_of (length dist.old) out.offsets.now weights.now) }
    requires lent { Lent root dist.old key.old tree.old }
    requires distance_len { length distance.old ≡ length dist.old }
    ensures { distance.new
        ≡ as_signed (length dist.old)
        (distances (length dist.old)
        (legs_of (length dist.old) out.entry.offsets.now out.entry.targets.now weights.now) root) }
{
    search(out, weights, root, dist, key, tree);
    sign(dist, distance);
}
