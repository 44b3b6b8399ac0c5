// Layer kernels. SSSP: least weights along outgoing arcs from a root.
#![tactic(auto)]

mod search;
mod tree;

ghost use Rattle.std.specs.Prelude.{◌≡◌, Some};
ghost use Rattle.basis.specs.Area.{cleared};
ghost use Rattle.basis.specs.Refusal.{gives};
ghost use Rattle.graph.specs.Weights.{weighing_of};
ghost use Rattle.kernels.specs.Answer.{says};
ghost use Rattle.sssp.specs.Call.{outcome, refusal, room_for, left_by, sssp_call};
ghost use Rattle.sssp.specs.Steps.{Ready};

use crate::search::measure;
use basis::Refusal;
use basis::area::clear;
use basis::refusal::{NO_ROOM, NOT_THERE, UNSOUND, UNWEIGHTED};
use graph::Weighed;
use graph::find::find;
use graph::weights::{is_weighted, weighted_sound_over};
use kernels::refused;

// Has each area n places?
#[tactic(auto, unfolding(crate::specs::Call::room_for))]
fn room(n: usize, distance: &[i64], settled: &[usize], waiting: &[usize], tree: &[usize]) -> bool
    ensures { result ≡ room_for n distance.now settled.now waiting.now tree.now }
{
    (n <= distance.len() && n <= settled.len()) && (n <= waiting.len() && n <= tree.len())
}

// The three working areas are zero.
// Stays: the areas as parameters, here and below. A struct that holds them as `&mut` needs, in each contract, a clause for each of them
// that it is still the same area, and what they hold would be said no shorter.
fn clear_all(settled: &mut [usize], waiting: &mut [usize], tree: &mut [usize])
    ensures { (settled.new ≡ cleared settled.old) × (waiting.new ≡ cleared waiting.old)
        × (tree.new ≡ cleared tree.old) }
{
    clear(settled);
    clear(waiting);
    clear(tree);
}

// A refusal: all areas are zero.
fn refuse(
    number: usize,
    distance: &mut [i64],
    settled: &mut [usize],
    waiting: &mut [usize],
    tree: &mut [usize],
) -> Result<(), Refusal>
    ensures { outcome (says result) distance.new settled.new waiting.new tree.new
        ≡ refusal number distance.old settled.old waiting.old tree.old }
{
    clear(distance);
    clear_all(settled, waiting, tree);
    refused(number)
}

// The distances from the vertex root, in the first places of areas that have room for them.
fn fill(
    g: Weighed,
    root: usize,
    distance: &mut [i64],
    settled: &mut [usize],
    waiting: &mut [usize],
    tree: &mut [usize],
)
    requires { Ready (weighing_of g) root distance.old settled.old waiting.old tree.old }
    ensures { outcome (gives tt) distance.new settled.new waiting.new tree.new
        ≡ left_by (gives tt) (weighing_of g.entry) (Some root)
        distance.old settled.old waiting.old tree.old }
{
    let n = g.graph.size.vertices;
    clear(distance);
    measure(
        g.graph.outward,
        g.out_weights,
        root,
        &mut distance[..n],
        &mut settled[..n],
        &mut waiting[..n],
        &mut tree[..n],
    );
    clear_all(settled, waiting, tree);
}

// The distances, in millionths, of a sound weighted graph's vertices from the one that has the identifier root; or a refusal: 9, 14, 10
// or 8. `settled`, `waiting` and `tree` are working areas; `tree` serves the check of the graph as well.
pub fn sssp(
    g: Weighed,
    root: i64,
    distance: &mut [i64],
    settled: &mut [usize],
    waiting: &mut [usize],
    tree: &mut [usize],
) -> Result<(), Refusal>
    ensures { outcome (says result) distance.new settled.new waiting.new tree.new
        ≡ sssp_call (weighing_of g.entry) root distance.old settled.old waiting.old tree.old }
{
    if !weighted_sound_over(g, tree) {
        return refuse(UNSOUND, distance, settled, waiting, tree);
    }
    let size = g.graph.size;
    if !is_weighted(size, g.weighted) {
        return refuse(UNWEIGHTED, distance, settled, waiting, tree);
    }
    let Some(v) = find(&g.graph.ids[..size.vertices], root) else {
        return refuse(NOT_THERE, distance, settled, waiting, tree);
    };
    if !room(size.vertices, distance, settled, waiting, tree) {
        return refuse(NO_ROOM, distance, settled, waiting, tree);
    }
    fill(g, v, distance, settled, waiting, tree);
    Ok(())
}
