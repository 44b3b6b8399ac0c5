// Layer kernels. LCC: the local clustering coefficient of every vertex, as a fraction in lowest terms.
#![tactic(auto)]

mod coefficients;
pub mod common;
pub mod ratio;

ghost use Rattle.std.specs.Prelude.{◌≡◌};
ghost use Rattle.basis.specs.Refusal.{gives};
ghost use Rattle.graph.specs.Sound.{standing};
ghost use Rattle.kernels.specs.Answer.{says};
ghost use Rattle.lcc.specs.Call.{outcome, refusal, room_for, left_by, lcc_call};
ghost use Rattle.lcc.specs.Steps.{Ready};

use basis::Refusal;
use basis::area::clear;
use basis::refusal::{NO_ROOM, UNSOUND};
use coefficients::coefficients;
use graph::Lent;
use graph::walk::sound_over;
use kernels::refused;

// Has each area n places?
#[tactic(auto, unfolding(crate::specs::Call::room_for))]
fn room(n: usize, numerators: &[usize], denominators: &[usize], work: &[usize]) -> bool
    ensures { result ≡ room_for n numerators.now denominators.now work.now }
{
    n <= numerators.len() && n <= denominators.len() && n <= work.len()
}

// A refusal: all areas are zero.
fn refuse(
    number: usize,
    numerators: &mut [usize],
    denominators: &mut [usize],
    work: &mut [usize],
) -> Result<(), Refusal>
    ensures { outcome (says result) numerators.new denominators.new work.new
        ≡ refusal number numerators.old denominators.old work.old }
{
    clear(numerators);
    clear(denominators);
    clear(work);
    refused(number)
}

// The coefficients, in the first places of areas that have room for them.
fn fill(
    g: Lent,
    numerators: &mut [usize],
    denominators: &mut [usize],
    work: &mut [usize],
) -> Result<(), Refusal>
    requires { Ready (standing g) numerators.old denominators.old work.old }
    ensures { outcome (says result) numerators.new denominators.new work.new
        ≡ left_by (gives tt) (standing g.entry) numerators.old denominators.old work.old }
{
    clear(numerators);
    clear(denominators);
    coefficients(g, numerators, denominators, work);
    Ok(())
}

// The coefficients of a sound graph's vertices in lowest terms; or a refusal: 9 or 8. `work` is a working area.
pub fn lcc(
    g: Lent,
    numerators: &mut [usize],
    denominators: &mut [usize],
    work: &mut [usize],
) -> Result<(), Refusal>
    ensures { outcome (says result) numerators.new denominators.new work.new
        ≡ lcc_call (standing g.entry) numerators.old denominators.old work.old }
{
    if !sound_over(g, work) {
        return refuse(UNSOUND, numerators, denominators, work);
    }
    if !room(g.size.vertices, numerators, denominators, work) {
        return refuse(NO_ROOM, numerators, denominators, work);
    }
    fill(g, numerators, denominators, work)
}
