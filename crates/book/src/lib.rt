// Layer book. The group book: groups of vertices that grow join by join, in one area of signed numbers that the caller lends, `entries`:
// a parent at an ordinary vertex, and at a head minus its group's size. Here are the answers, and the walks that the calls share.
#![tactic(auto)]

ghost use Rattle.std.specs.Prelude.{◌≡◌, ◌≤◌, ◌<◌, length, leb};
ghost use Rattle.basis.specs.Limits.{most_vertices};
ghost use Rattle.book.specs.Rules.{walk_from, heads_of};
ghost use Rattle.book.specs.One.{next_here, one};
ghost use Rattle.book.specs.Says.{says_headed};
ghost use Rattle.book.specs.Steps.{says_pair};

use basis::Refusal;
use basis::limits::MOST_VERTICES;
use basis::refusal::{NO_ROOM, NOT_THERE, UNSOUND};
use entry::{is_head, parent};

mod entry;
pub mod joining;
pub mod opening;
pub mod readings;

pub use joining::{Joining, Stopped};

// The head and the number of moves that reach it.
#[derive(Clone, Copy, Debug, PartialEq, Eq)]
pub struct Head {
    pub head: usize,
    pub moves: usize,
}

// How many moves a walk may take.
const MOST_MOVES: usize = 16;

// Whether the area has at most 65,536 places.
fn well_lent(entries: &[i64]) -> bool
    ensures { result ≡ leb (length entries.now) most_vertices }
{
    entries.len() <= MOST_VERTICES
}

// The walk from `v` to its head, refused where it leaves the area or takes too many moves. It is inlined, since else its answer of several
// values would go through memory.
#[inline(always)]
fn walk(entries: &[i64], v: usize) -> Result<Head, Refusal>
    requires { (v < length entries.now) × (length entries.now ≤ most_vertices) }
    ensures { says_headed result ≡ walk_from (next_here entries.now) (length entries.now) v }
{
    let mut at = v;
    for moves in 0..=MOST_MOVES {
        if is_head(entries, at) {
            return Ok(Head { head: at, moves });
        }
        at = parent(entries, at);
        if entries.len() <= at {
            break;
        }
    }
    Err(Refusal::plain(UNSOUND))
}

// The heads of two vertices, with the checks of a call that names both: both are checked before any walk.
fn heads(entries: &[i64], u: usize, v: usize) -> Result<(usize, usize), Refusal>
    ensures { says_pair result ≡ heads_of (one entries.now) u v }
{
    if !well_lent(entries) {
        return Err(Refusal::plain(NO_ROOM));
    }
    if entries.len() <= u || entries.len() <= v {
        return Err(Refusal::plain(NOT_THERE));
    }
    let first = walk(entries, u)?;
    let second = walk(entries, v)?;
    Ok((first.head, second.head))
}
