// Layer kernels. BFS: least hops along outgoing arcs from a root, by a queue in which each vertex is served once.
#![tactic(auto)]

ghost use Rattle.std.specs.Prelude.{◌≡◌, true, ◌<◌, length, Some};
ghost use Rattle.basis.specs.Area.{infinity};
ghost use Rattle.basis.specs.Refusal.{gives};
ghost use Rattle.basis.specs.Scan.{all_below, Inside};
ghost use Rattle.graph.specs.Part.{part_of};
ghost use Rattle.graph.specs.Sound.{standing};
ghost use Rattle.kernels.specs.Answer.{says};
ghost use Rattle.bfs.specs.Depth.{depths};
ghost use Rattle.bfs.specs.Call.{outcome, refusal, room_for, left_by, bfs_call};
ghost use Rattle.bfs.specs.Steps.{Ready, Queued, board, relaxed, relaxed_all, advanced};

use basis::Refusal;
use basis::area::{UNREACHABLE, clear};
use basis::refusal::{NO_ROOM, NOT_THERE, UNSOUND};
use graph::find::find;
use graph::walk::sound_over;
use graph::{Lent, Way};
use kernels::refused;
use view::neighbours;

// The ring that is served: it ends at a place of the queue, and its vertices have one depth. So no depth is read back from the results.
#[derive(Clone, Copy)]
struct Ring {
    end: usize,
    level: usize,
}

impl Ring {
    // At the end of a ring, the next one: up to the tail, one level deeper.
    #[tactic(auto, unfolding(crate::specs::Steps::advanced))]
    fn advance(self, head: usize, tail: usize) -> Ring
        requires { self.level < infinity }
        ensures { result ≡ advanced self head tail }
    {
        if head == self.end {
            Ring {
                end: tail,
                level: self.level + 1,
            }
        } else {
            self
        }
    }
}

// Vertex w is met at depth d: where it has no depth yet it gets this one, and goes to the end of the queue.
// Stays: depth, queue and tail as parameters, here and in `walk`. A struct that holds the two areas as `&mut` needs, in each contract, a
// clause for each of them that it is still the same area, and what they hold would be said no shorter.
fn relax(depth: &mut [i64], queue: &mut [usize], tail: usize, w: usize, d: usize) -> usize
    requires queued { Queued (board depth.old queue.old tail) }
    requires w_in_bounds { (w < length depth.old) × (d < infinity) }
    ensures { board depth.new queue.new result
        ≡ relaxed d w (board depth.old queue.old tail) }
{
    if depth[w] == UNREACHABLE {
        depth[w] = d as i64;
        queue[tail] = w;
        tail + 1
    } else {
        tail
    }
}

// The vertices of a part are met in order, at depth d.
fn walk(next: &[usize], depth: &mut [i64], queue: &mut [usize], tail: usize, d: usize) -> usize
    requires queued { Queued (board depth.old queue.old tail) }
    requires next_value { (all_below (length depth.old) next.now ≡ true) × (d < infinity) }
    ensures { board depth.new queue.new result
        ≡ relaxed_all d next.now (board depth.old queue.old tail) }
{
    let mut end = tail;
    for &w in next {
        end = relax(depth, queue, end, w, d);
    }
    end
}

// The whole search: each vertex that is met is served once, in the order in which it was met.
fn search(out: Way, root: usize, depth: &mut [i64], queue: &mut [usize])
    requires inside { Inside (length depth.old) (part_of (length depth.old) out.offsets.now out.targets.now) }
    requires root_in_bounds { (root < length depth.old) × (length queue.old ≡ length depth.old) }
    ensures { depth.new
        ≡ depths (length depth.old)
        (part_of (length depth.old) out.entry.offsets.now out.entry.targets.now) root }
{
    let n = depth.len();
    depth.fill(UNREACHABLE);
    let mut tail = relax(depth, queue, 0, root, 0);
    let mut head = 0;
    let mut ring = Ring { end: 1, level: 0 };
    // Stays: the queue grows while it is served, so where the loop ends is not known at its start.
    while head < tail {
        ring = ring.advance(head, tail);
        let next = neighbours(out.targets, out.offsets, n, queue[head]);
        tail = walk(next, depth, queue, tail, ring.level + 1);
        head += 1;
    }
}

// Has each area n places?
#[tactic(auto, unfolding(crate::specs::Call::room_for))]
fn room(n: usize, depth: &[i64], queue: &[usize]) -> bool
    ensures { result ≡ room_for n depth.now queue.now }
{
    n <= depth.len() && n <= queue.len()
}

// A refusal: all areas are zero.
fn refuse(number: usize, depth: &mut [i64], queue: &mut [usize]) -> Result<(), Refusal>
    ensures { outcome (says result) depth.new queue.new
        ≡ refusal number depth.old queue.old }
{
    clear(depth);
    clear(queue);
    refused(number)
}

// The depths from the vertex root, in the first places of areas that have room for them.
fn fill(g: Lent, root: usize, depth: &mut [i64], queue: &mut [usize])
    requires { Ready (standing g) root depth.old queue.old }
    ensures { outcome (gives tt) depth.new queue.new
        ≡ left_by (gives tt) (standing g.entry) (Some root) depth.old queue.old }
{
    let n = g.size.vertices;
    search(g.outward, root, &mut depth[..n], &mut queue[..n]);
    clear(&mut depth[n..]);
    clear(queue);
}

// The depths of a sound graph's vertices from the one that has the identifier root; or a refusal: 9, 10 or 8. `queue` is a working area.
pub fn bfs(g: Lent, root: i64, depth: &mut [i64], queue: &mut [usize]) -> Result<(), Refusal>
    ensures { outcome (says result) depth.new queue.new
        ≡ bfs_call (standing g.entry) root depth.old queue.old }
{
    if !sound_over(g, queue) {
        return refuse(UNSOUND, depth, queue);
    }
    let n = g.size.vertices;
    let Some(v) = find(&g.ids[..n], root) else {
        return refuse(NOT_THERE, depth, queue);
    };
    if !room(n, depth, queue) {
        return refuse(NO_ROOM, depth, queue);
    }
    fill(g, v, depth, queue);
    Ok(())
}
