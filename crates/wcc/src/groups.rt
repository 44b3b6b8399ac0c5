// The components as groups of a book.
ghost use Rattle.std.specs.Prelude.{◌≡◌, length};
ghost use Rattle.basis.specs.Area.{column};
ghost use Rattle.graph.specs.Part.{part_of};
ghost use Rattle.wcc.specs.Steps.{head_here, join_arcs, grouped};

use book::joining::join_each;
use book::opening::open_book;
use book::readings::head;
use graph::Way;
use view::neighbours;

// The head of v.
fn head_of(entries: &[i64], v: usize) -> usize
    ensures { result ≡ head_here entries.now v }
{
    match head(entries, v) {
        Ok(h) => h.head,
        Err(_) => 0,
    }
}

// The head of each vertex that `heads` has a place for.
fn note_heads(entries: &[i64], heads: &mut [usize])
    ensures { heads.new ≡ column (head_here entries.now) 0 (length heads.old) }
{
    for (v, place) in heads.iter_mut().enumerate() {
        *place = head_of(entries, v);
    }
}

// Joins along every outward arc of n vertices. In a book of n vertices just opened every join is accepted, since the arcs name its
// vertices: what `join_each` answers is `Ok` for each of them (law `Joins.arcs-accepted`), and is not looked at.
fn join_arcs(n: usize, way: Way, entries: &mut [i64])
    ensures { entries.new ≡ join_arcs (part_of n way.entry.offsets.now way.entry.targets.now) n entries.old }
{
    for u in 0..n {
        let _joined = join_each(entries, u, neighbours(way.targets, way.offsets, n, u));
    }
}

// The head of each vertex in the book of the groups that the arcs of n vertices make; `entries` holds that book.
pub(crate) fn find_heads(n: usize, way: Way, entries: &mut [i64], heads: &mut [usize])
    ensures { heads.new
        ≡ column (head_here (grouped (part_of n way.entry.offsets.now way.entry.targets.now) n entries.old)) 0
        (length heads.old) }
{
    let _opened = open_book(entries);
    join_arcs(n, way, entries);
    note_heads(entries, heads);
}
