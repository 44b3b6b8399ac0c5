// Layer kernels. WCC: weakly connected components (Graphalytics 1.0.4, 2.3.3), on the group book.
#![tactic(auto)]

mod groups;
mod labels;

ghost use Rattle.std.specs.Prelude.{◌≡◌};
ghost use Rattle.basis.specs.Refusal.{gives};
ghost use Rattle.graph.specs.Sound.{standing};
ghost use Rattle.kernels.specs.Answer.{says};
ghost use Rattle.wcc.specs.Call.{outcome, refusal, room_for, left_by, wcc_call};
ghost use Rattle.wcc.specs.Steps.{Ready};

use basis::Refusal;
use basis::area::clear;
use basis::refusal::{NO_ROOM, UNSOUND};
use graph::Lent;
use graph::walk::sound_over;
use kernels::refused;
use labels::label;

// Has each area n places?
#[tactic(auto, unfolding(crate::specs::Call::room_for))]
fn room(n: usize, res: &[i64], heads: &[usize]) -> bool
    ensures { result ≡ room_for n res.now heads.now }
{
    n <= res.len() && n <= heads.len()
}

// A refusal: all areas are zero.
fn refuse(number: usize, res: &mut [i64], heads: &mut [usize]) -> Result<(), Refusal>
    ensures { outcome (says result) res.new heads.new
        ≡ refusal number res.old heads.old }
{
    clear(res);
    clear(heads);
    refused(number)
}

// The labels, in the first places of areas that have room for them.
fn fill(g: Lent, res: &mut [i64], heads: &mut [usize]) -> Result<(), Refusal>
    requires { Ready
        (standing g)
        res.old heads.old }
    ensures { outcome (says result) res.new heads.new
        ≡ left_by (gives tt)
        (standing g.entry)
        res.old heads.old }
{
    clear(res);
    let n = g.size.vertices;
    label(n, g.outward, &g.ids[..n], &mut res[..n], &mut heads[..n]);
    clear(heads);
    Ok(())
}

// The component labels of a sound graph's vertices; or a refusal: 9 or 8. `res` holds the book before it holds the labels; `heads`, a
// working area, serves the check of the graph and then holds each vertex's head.
pub fn wcc(g: Lent, res: &mut [i64], heads: &mut [usize]) -> Result<(), Refusal>
    ensures { outcome (says result) res.new heads.new
        ≡ wcc_call
        (standing g.entry)
        res.old heads.old }
{
    if !sound_over(g, heads) {
        return refuse(UNSOUND, res, heads);
    }
    if !room(g.size.vertices, res, heads) {
        return refuse(NO_ROOM, res, heads);
    }
    fill(g, res, heads)
}
