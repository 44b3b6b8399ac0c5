// Is a lent graph sound, in time linear in its arcs? One walk over the outward arcs, with a cursor for each vertex into the inward sources.
ghost use Rattle.std.specs.Prelude.{◌≡◌, true, ◌≤◌, ◌<◌, length};
ghost use Rattle.basis.specs.Area.{cleared};
ghost use Rattle.basis.specs.Scan.{all_below};
ghost use Rattle.graph.specs.Part.{part_of};
ghost use Rattle.graph.specs.Sound.{standing, sound_parts, both_ways, sound_graph};
ghost use Rattle.graph.specs.Walk.{Ways, arcs_walked, all_walked, at_ends, arcs_checked};

use crate::sound::{sides_sound, sound};
use crate::{Lent, Way};
use basis::area::{clear, copy};

// The arcs from u, in order: u stands at the target's cursor, which moves on. That a cursor passes its part's end shows at the end of the
// walk.
fn arcs_walked(targets: &[usize], in_sources: &[usize], u: usize, cursors: &mut [usize]) -> bool
    requires { all_below (length cursors.old) targets.now ≡ true }
    ensures { arcs_checked result cursors.new
        ≡ arcs_walked in_sources.now u targets.now cursors.old }
{
    for &w in targets {
        let cursor = cursors[w];
        if in_sources.len() <= cursor {
            return false;
        }
        if in_sources[cursor] != u {
            return false;
        }
        cursors[w] = cursor + 1;
    }
    true
}

// The arcs of every vertex.
fn all_walked(out: Way, in_sources: &[usize], n: usize, cursors: &mut [usize]) -> bool
    requires { (sound_parts n out.offsets.now out.targets.now ≡ true) × (n ≤ length cursors.old) }
    ensures { arcs_checked result cursors.new
        ≡ all_walked in_sources.now (part_of n out.entry.offsets.now out.entry.targets.now) n
        cursors.old }
{
    for u in 0..n {
        if !arcs_walked(out.part(n, u), in_sources, u, cursors) {
            return false;
        }
    }
    true
}

// Every cursor stands at the end of its vertex's part.
fn at_ends(in_offsets: &[usize], n: usize, cursors: &[usize]) -> bool
    requires { (n < length in_offsets.now) × (n ≤ length cursors.now) }
    ensures { result ≡ at_ends n in_offsets.now cursors.now }
{
    cursors[..n] == in_offsets[1..=n]
}

// The inward arcs are exactly the outward ones reversed. Every cursor begins at the start of its vertex's part.
fn reversed(out: Way, into: Way, n: usize, cursors: &mut [usize]) -> bool
    requires ways { Ways n (part_of n out.offsets.now out.targets.now) into.offsets.now into.targets.now }
    requires n_in_bounds { n ≤ length cursors.old }
    ensures { result ≡ both_ways n (part_of n out.entry.offsets.now out.entry.targets.now)
        (part_of n into.entry.offsets.now into.entry.targets.now) }
{
    copy(into.offsets, n, cursors);
    if !all_walked(out, into.targets, n, cursors) {
        return false;
    }
    at_ends(into.offsets, n, cursors)
}

// A lent graph is sound: what `sound` answers, in linear time where the working area has a place for each vertex. The area is zero
// afterwards.
pub fn sound_over(g: Lent, cursors: &mut [usize]) -> bool
    ensures { arcs_checked result cursors.new
        ≡ arcs_checked (sound_graph (standing g.entry)) (cleared cursors.old) }
{
    let n = g.size.vertices;
    if cursors.len() < n {
        clear(cursors);
        return sound(g);
    }
    if !sides_sound(g) {
        clear(cursors);
        return false;
    }
    let answer = reversed(g.outward, g.inward, n, cursors);
    clear(cursors);
    answer
}
