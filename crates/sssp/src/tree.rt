// The tree of winners: node k, from 1 on, holds the vertex with the least key of all below it; the nodes below k are 2 k and 2 k + 1, and
// the vertices are the nodes behind the tree's own. So the top is the least of all, and a key that changes is played up one way.
ghost use Rattle.std.specs.Prelude.{◌≡◌, ◌<◌, length, set};
ghost use Rattle.sssp.specs.Tree.{won, nearer, winner_at, Nodes, Played, None, Spoiled, Replayed};

// The vertex that wins below node k: the vertices are the nodes behind the tree's own.
#[tactic(auto, unfolding(crate::specs::Tree::won))]
pub(crate) fn winner(tree: &[usize], k: usize) -> usize
    ensures { result ≡ won tree.now k }
{
    let n = tree.len();
    if k < n { tree[k] } else { k - n }
}

// Of two vertices the one with the lesser key.
#[tactic(auto, unfolding(crate::specs::Tree::nearer))]
fn nearer(key: &[usize], a: usize, b: usize) -> usize
    requires { (a < length key.now) × (b < length key.now) }
    ensures { result ≡ nearer key.now a b }
{
    if key[b] < key[a] { b } else { a }
}

// Stays: `key` and `tree` as two parameters, here and in `search.rt`, for the reason that stands at `clear_all`.
// Node k is played again, by the winners of the two nodes below it.
fn play(key: &[usize], tree: &mut [usize], k: usize)
    requires nodes { Nodes key.now tree.old }
    requires k_in_bounds { k < length tree.old }
    ensures { tree.new ≡ set tree.old k (winner_at key.now tree.old k) }
{
    let a = winner(tree, 2 * k);
    let b = winner(tree, 2 * k + 1);
    tree[k] = nearer(key, a, b);
}

// Every node is played, from the last one to the top.
pub(crate) fn build(key: &[usize], tree: &mut [usize])
    requires { Nodes key.now tree.old }
    ensures { Played None key.now tree.new }
{
    for k in (1..tree.len()).rev() {
        play(key, tree, k);
    }
}

// The key of v has changed: the nodes over v are played again from below, until one stays as it was and v does not win there.
fn replay(key: &[usize], tree: &mut [usize], v: usize)
    requires { Spoiled v key.now tree.old }
    ensures { Played None key.now tree.new }
{
    let mut at = (tree.len() + v) / 2;
    // Stays: a node's place is half of the place of the one below it, so the loop goes by halves and not by places in a row.
    while 0 < at {
        let before = tree[at];
        play(key, tree, at);
        let after = tree[at];
        if after == before && after != v {
            return;
        }
        at /= 2;
    }
}

// Vertex v gets another key, and the nodes above it are played again.
pub(crate) fn rekey(key: &mut [usize], tree: &mut [usize], v: usize, x: usize)
    requires played { Played None key.old tree.old }
    requires v_in_bounds { v < length key.old }
    ensures { Replayed (set key.old v x) key.new tree.new }
{
    key[v] = x;
    replay(key, tree, v);
}
