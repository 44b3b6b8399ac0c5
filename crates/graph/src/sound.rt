// Is a lent graph sound? Refusal 9 is given exactly where it isn't.
ghost use Rattle.std.specs.Prelude.{◌≡◌, true, ◌<◌, length};
ghost use Rattle.graph.specs.Part.{part_of};
ghost use Rattle.graph.specs.Sound.{standing, first_ids_rise, never_fall, sound_offsets, sound_part, sound_parts};
ghost use Rattle.graph.specs.Sound.{sound_side, mirrored, sound_sides, sound_graph};
ghost use Rattle.graph.specs.Steps.{answered};

use crate::find::bisect;
use crate::{Lent, Way};
use basis::limits::{MOST_ARCS, MOST_VERTICES};

// The first n identifiers are there and rise.
fn ids_rise(ids: &[i64], n: usize) -> bool
    ensures { result ≡ first_ids_rise n ids.now }
{
    n <= ids.len() && ids[..n].is_sorted_by(|a, b| *a < *b)
}

// The first n + 1 offsets never fall.
fn never_fall(offsets: &[usize], n: usize) -> bool
    requires { n < length offsets.now }
    ensures { result ≡ never_fall n offsets.now }
{
    offsets[..=n].is_sorted()
}

// They begin at 0, never fall and end at the arc count.
fn offsets_sound(offsets: &[usize], n: usize, m: usize) -> bool
    requires { n < length offsets.now }
    ensures { result ≡ sound_offsets n m offsets.now }
{
    if offsets[0] != 0 {
        return false;
    }
    if offsets[n] != m {
        return false;
    }
    never_fall(offsets, n)
}

// One vertex's part is sound: it strictly rises, and names only vertices below n other than v.
fn part_sound(members: &[usize], v: usize, n: usize) -> bool
    ensures { result ≡ sound_part n v members.now }
{
    let mut least = 0;
    for &w in members {
        if w < least {
            return false;
        }
        if n <= w {
            return false;
        }
        if w == v {
            return false;
        }
        least = w + 1;
    }
    true
}

// Every vertex's part is.
fn parts_sound(way: Way, n: usize) -> bool
    ensures { result ≡ sound_parts n way.entry.offsets.now way.entry.targets.now }
{
    (0..n).all(|v| part_sound(way.part(n, v), v, n))
}

// One way of a graph is sound.
fn side_sound(way: Way, n: usize, m: usize) -> bool
    ensures { result ≡ sound_side n m way.entry.offsets.now way.entry.targets.now }
{
    if way.offsets.len() <= n {
        return false;
    }
    if way.targets.len() < m {
        return false;
    }
    if !offsets_sound(way.offsets, n, m) {
        return false;
    }
    parts_sound(way, n)
}

// Each arc from u to one of a part's members stands at its other end in the other way.
fn part_answered(members: &[usize], u: usize, back: Way, n: usize) -> bool
    requires { sound_parts n back.offsets.now back.targets.now ≡ true }
    ensures { result ≡ answered n back.entry.offsets.now back.entry.targets.now u members.now }
{
    members
        .iter()
        .all(|w| bisect(back.part(n, *w), u).is_some())
}

// Each arc of one way stands in the other.
fn side_answered(from: Way, back: Way, n: usize) -> bool
    requires { sound_parts n back.offsets.now back.targets.now ≡ true }
    ensures { result ≡ mirrored n (part_of n from.entry.offsets.now from.entry.targets.now)
        (part_of n back.entry.offsets.now back.entry.targets.now) }
{
    (0..n).all(|u| part_answered(from.part(n, u), u, back, n))
}

// All of it but how the two ways belong together: the limits, the identifiers, and each way for itself.
pub(crate) fn sides_sound(g: Lent) -> bool
    ensures { result ≡ sound_sides (standing g.entry) }
{
    let n = g.size.vertices;
    let m = g.size.arcs;
    if MOST_VERTICES < n {
        return false;
    }
    if MOST_ARCS < m {
        return false;
    }
    if !ids_rise(g.ids, n) {
        return false;
    }
    if !side_sound(g.outward, n, m) {
        return false;
    }
    side_sound(g.inward, n, m)
}

// A lent graph is sound.
pub fn sound(g: Lent) -> bool
    ensures { result ≡ sound_graph (standing g.entry) }
{
    let n = g.size.vertices;
    if !sides_sound(g) {
        return false;
    }
    if !side_answered(g.outward, g.inward, n) {
        return false;
    }
    side_answered(g.inward, g.outward, n)
}
