// Are the weights beside the arcs of a lent graph sound?
ghost use Rattle.std.specs.Prelude.{◌≡◌, true, ◌≤◌, length};
ghost use Rattle.basis.specs.Area.{cleared};
ghost use Rattle.graph.specs.Sound.{standing, sound_graph};
ghost use Rattle.graph.specs.Walk.{arcs_checked};
ghost use Rattle.graph.specs.Weights.{weighing_of, counts_weighted, out_legs, in_legs, has_leg, legs_answered, legs_mirrored};
ghost use Rattle.graph.specs.Weights.{all_light, sound_weights, sound_weighted, HasBeside};

use crate::find::bisect;
use crate::part::part;
use crate::walk::sound_over;
use crate::{Size, Weighed};
use basis::area::{clear, copy};
use basis::limits::MOST_WEIGHT;

// Is a graph weighted? One without arcs is not, however it is marked.
pub fn is_weighted(size: Size, weighted: bool) -> bool
    ensures { result ≡ counts_weighted weighted size.arcs }
{
    weighted && 0 < size.arcs
}

// The first m weights are at most the largest.
fn all_light(weights: &[usize], m: usize) -> bool
    requires { m ≤ length weights.now }
    ensures { result ≡ all_light m weights.now }
{
    weights[..m].iter().all(|weight| *weight <= MOST_WEIGHT)
}

// One of the arcs that lead to w comes from u, and weighs c.
fn has_leg(g: Weighed, w: usize, u: usize, c: usize) -> bool
    requires { HasBeside (weighing_of g) }
    ensures { result ≡ has_leg u c (in_legs (weighing_of g.entry) w) }
{
    let n = g.graph.size.vertices;
    let into = g.graph.inward;
    let weights = part(g.in_weights, into.offsets, n, w);
    match bisect(into.part(n, w), u) {
        Some(place) => weights[place] == c,
        None => false,
    }
}

// The arcs of u stand at their other ends with the same weight.
fn legs_answered(g: Weighed, u: usize) -> bool
    requires { HasBeside (weighing_of g) }
    ensures { result ≡ legs_answered (in_legs (weighing_of g.entry)) u (out_legs (weighing_of g.entry) u) }
{
    let n = g.graph.size.vertices;
    let out = g.graph.outward;
    let weights = part(g.out_weights, out.offsets, n, u);
    out.part(n, u)
        .iter()
        .zip(weights)
        .all(|(w, weight)| has_leg(g, *w, u, *weight))
}

// So do the arcs of every vertex: by bisection, with no working area.
fn legs_searched(g: Weighed) -> bool
    requires { HasBeside (weighing_of g) }
    ensures { result ≡ legs_mirrored g.entry.graph.size.vertices (out_legs (weighing_of g.entry)) (in_legs (weighing_of g.entry)) }
{
    (0..g.graph.size.vertices).all(|u| legs_answered(g, u))
}

// The same in one walk over the outward arcs. Every cursor begins at the start of its vertex's part; the inward arc that reverses the next
// one stands at its target's cursor, which moves on.
fn legs_walked(g: Weighed, cursors: &mut [usize]) -> bool
    requires beside { HasBeside (weighing_of g) }
    requires vertices_in_bounds { g.graph.size.vertices ≤ length cursors.old }
    ensures { result ≡ legs_mirrored g.entry.graph.size.vertices (out_legs (weighing_of g.entry)) (in_legs (weighing_of g.entry)) }
{
    let out_targets = g.graph.outward.targets;
    let out_weights = g.out_weights;
    let in_weights = g.in_weights;
    copy(g.graph.inward.offsets, g.graph.size.vertices, cursors);
    for i in 0..g.graph.size.arcs {
        let w = out_targets[i];
        let cursor = cursors[w];
        if in_weights[cursor] != out_weights[i] {
            return false;
        }
        cursors[w] = cursor + 1;
    }
    true
}

// The weights of a sound graph are sound, in linear time where the working area has a place for each vertex.
fn weights_sound(g: Weighed, cursors: &mut [usize]) -> bool
    requires { sound_graph (standing g.graph) ≡ true }
    ensures { result ≡ sound_weights (weighing_of g.entry) }
{
    let m = g.graph.size.arcs;
    if g.out_weights.len() < m {
        return false;
    }
    if g.in_weights.len() < m {
        return false;
    }
    if !all_light(g.out_weights, m) {
        return false;
    }
    if !all_light(g.in_weights, m) {
        return false;
    }
    if cursors.len() < g.graph.size.vertices {
        return legs_searched(g);
    }
    legs_walked(g, cursors)
}

// A lent graph is sound with its weights, which are looked at only where it is weighted. The working area is zero afterwards.
pub fn weighted_sound_over(g: Weighed, cursors: &mut [usize]) -> bool
    ensures { arcs_checked result cursors.new
        ≡ arcs_checked (sound_weighted (weighing_of g.entry)) (cleared cursors.old) }
{
    if !sound_over(g.graph, cursors) {
        return false;
    }
    if !is_weighted(g.graph.size, g.weighted) {
        return true;
    }
    let answer = weights_sound(g, cursors);
    clear(cursors);
    answer
}
