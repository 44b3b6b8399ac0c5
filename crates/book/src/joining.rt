// Joining the groups of two vertices.
ghost use Rattle.std.specs.Prelude.{◌≡◌, ◌≤◌, ◌<◌};
ghost use Rattle.basis.specs.Limits.{most_vertices};
ghost use Rattle.basis.specs.Refusal.{gives, plain};
ghost use Rattle.book.specs.Rules.{merged, outcome, each_outcome, join_book, join_each, above};
ghost use Rattle.book.specs.One.{one_book};
ghost use Rattle.book.specs.Says.{says_joined, says_joined_each, says_headed};
ghost use Rattle.book.specs.Steps.{AtHead, link_one, hang_one, one_more, Walking};

use super::entry::{is_head, size_at};
use super::{Head, MOST_MOVES, heads, walk, well_lent};
use basis::Refusal;
use basis::refusal::{NO_ROOM, NOT_THERE, UNSOUND};
use std::fmt;

// What an accepted join did: it merged two groups, or it found that the two vertices are of one group already.
#[derive(Clone, Copy, Debug, PartialEq, Eq)]
pub enum Joining {
    Merged,
    Already,
}

impl fmt::Display for Joining {
    fn fmt<W: fmt::Write>(&self, f: &mut fmt::Formatter<W>) -> fmt::Result {
        match self {
            Joining::Merged => f.write_str("merged"),
            Joining::Already => f.write_str("one group already"),
        }
    }
}

// Where the joins of a vertex with each of a list stopped, since one was refused, and those behind it were not tried: how many were
// accepted before it, how many of those merged two groups, and its refusal.
#[derive(Clone, Copy, Debug, PartialEq, Eq)]
pub struct Stopped {
    pub joined: usize,
    pub merges: usize,
    pub refusal: Refusal,
}

impl Stopped {
    // At the first of them: none was accepted.
    fn at_first(number: usize) -> Self
        ensures { result ≡ record { joined = 0; merges = 0; refusal = plain number } }
    {
        Stopped {
            joined: 0,
            merges: 0,
            refusal: Refusal::plain(number),
        }
    }
}

// Puts the head `under` under the head `top`, whose size becomes `total`.
fn hang(entries: &mut [i64], top: usize, under: usize, total: usize)
    requires at_head { (AtHead entries.old top) × (AtHead entries.old under) }
    requires total_nonzero { (0 < total) × (total ≤ most_vertices) }
    ensures { outcome (gives merged) entries.new ≡ hang_one entries.old top under total }
{
    entries[under] = top as i64;
    entries[top] = -(total as i64);
}

// Whether the head `g`, of a group of `a` vertices, goes above the head `h`, of a group of `b`.
fn goes_above(a: usize, b: usize, g: usize, h: usize) -> bool
    ensures { result ≡ above a b g h }
{
    b < a || (a == b && g < h)
}

// Joins the groups of the heads `g` and `h`.
fn link(entries: &mut [i64], g: usize, h: usize) -> Result<Joining, Refusal>
    requires { (AtHead entries.old g) × (AtHead entries.old h) }
    ensures { outcome (says_joined result) entries.new ≡ link_one entries.old g h }
{
    if g == h {
        return Ok(Joining::Already);
    }
    let a = size_at(entries, g);
    let b = size_at(entries, h);
    if entries.len() < a + b {
        return Err(Refusal::plain(UNSOUND));
    }
    if goes_above(a, b, g, h) {
        hang(entries, g, h, a + b);
    } else {
        hang(entries, h, g, a + b);
    }
    Ok(Joining::Merged)
}

// The groups of two vertices become one, where they are two.
pub fn join(entries: &mut [i64], u: usize, v: usize) -> Result<Joining, Refusal>
    ensures { outcome (says_joined result) entries.new ≡ join_book one_book entries.old u v }
{
    let (g, h) = heads(entries, u, v)?;
    link(entries, g, h)
}

// The walk `at`, made one move longer by its head's going under `top`.
fn longer(at: Head, top: usize) -> Result<Head, Refusal>
    ensures { says_headed result ≡ one_more at.moves top }
{
    if MOST_MOVES <= at.moves {
        return Err(Refusal::plain(UNSOUND));
    }
    Ok(Head {
        head: top,
        moves: at.moves + 1,
    })
}

// Joins u, whose walk is `at`, with w, and carries the walk on. It takes u for the contract alone.
fn join_next(
    entries: &mut [i64],
    u: usize,
    at: &mut Result<Head, Refusal>,
    w: usize,
) -> Result<Joining, Refusal>
    requires { Walking entries.old u at.old }
    ensures { (outcome (says_joined result) entries.new ≡ join_book one_book entries.old u w) × Walking entries.new u at.new }
{
    if entries.len() <= w {
        return Err(Refusal::plain(NOT_THERE));
    }
    let first = (*at)?;
    let second = walk(entries, w)?;
    let joining = link(entries, first.head, second.head)?;
    if !is_head(entries, first.head) {
        *at = longer(first, second.head);
    }
    Ok(joining)
}

// Joins u with each of the others, one after the other, up to the first join that is refused: those before it stand, and it changes
// nothing. u is walked from once, and its walk carried from join to join.
pub fn join_each(entries: &mut [i64], u: usize, others: &[usize]) -> Result<usize, Stopped>
    ensures { each_outcome (says_joined_each result) entries.new
        ≡ join_each one_book entries.old u others.now }
{
    if others.is_empty() {
        return Ok(0);
    }
    if !well_lent(entries) {
        return Err(Stopped::at_first(NO_ROOM));
    }
    if entries.len() <= u {
        return Err(Stopped::at_first(NOT_THERE));
    }
    let mut at = walk(entries, u);
    let mut merges: usize = 0;
    for (i, w) in others.iter().enumerate() {
        let joining = match join_next(entries, u, &mut at, *w) {
            Ok(joining) => joining,
            Err(refusal) => {
                return Err(Stopped {
                    joined: i,
                    merges,
                    refusal,
                });
            }
        };
        match joining {
            Joining::Merged => merges += 1,
            Joining::Already => {}
        }
    }
    Ok(merges)
}
