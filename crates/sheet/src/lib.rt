// Layer desk. What the desk program prints for a sheet, into a lent area.
#![tactic(auto)]

pub mod jobs;

ghost use Rattle.std.specs.Prelude.{◌≡◌};
ghost use Rattle.basis.specs.Refusal.{said};
ghost use Rattle.load.specs.Load.{room_in, outcome};
ghost use Rattle.write.specs.Put.{written, put_at};
ghost use Rattle.sheet.specs.Desk.{load_of, plan_text, desk_output};
ghost use Rattle.sheet.specs.Steps.{Placed};

use crate::jobs::run_jobs;
use basis::Refusal;
use basis::limits::{DESK_EDGES, DESK_VERTICES};
use graph::{Lent, Size, Way};
use listing::put_refused;
use load::{Limits, load_within};
use plan::check;
use plan::sections::Plan;

// The load of a sheet's vertex and edge sections.
fn load_sections(
    s: &[u8],
    plan: Plan,
    ids: &mut [i64],
    out_offsets: &mut [usize],
    out_targets: &mut [usize],
    in_offsets: &mut [usize],
    in_sources: &mut [usize],
) -> Result<Size, Refusal>
    requires { Placed s.now plan }
    ensures { outcome (said result) ids.new out_offsets.new out_targets.new
        in_offsets.new in_sources.new
        ≡ load_of s.now plan
        (room_in ids.old out_offsets.old out_targets.old
        in_offsets.old in_sources.old) }
{
    load_within(
        Limits {
            vertices: DESK_VERTICES,
            edges: DESK_EDGES,
        },
        usize::from(plan.directed),
        &s[plan.vertices.from..plan.vertices.to],
        &s[plan.edges.from..plan.edges.to],
        ids,
        out_offsets,
        out_targets,
        in_offsets,
        in_sources,
    )
}

// What an accepted sheet prints: its load's refusal, or its jobs' lines.
#[tactic(auto, unfolding(crate::specs::Desk::plan_text))]
fn print_plan(s: &[u8], plan: Plan, out: &mut [u8]) -> usize
    requires { Placed s.now plan }
    ensures { written out.new result ≡ put_at out.old 0 (plan_text s.now plan) }
{
    let mut ids = [0i64; DESK_VERTICES];
    let mut out_offsets = [0usize; DESK_VERTICES + 1];
    let mut out_targets = [0usize; 2 * DESK_EDGES];
    let mut in_offsets = [0usize; DESK_VERTICES + 1];
    let mut in_sources = [0usize; 2 * DESK_EDGES];
    let x = load_sections(
        s,
        plan,
        &mut ids,
        &mut out_offsets,
        &mut out_targets,
        &mut in_offsets,
        &mut in_sources,
    );
    match x {
        Err(r) => put_refused(out, 0, r),
        Ok(size) => {
            let g = Lent {
                size,
                ids: &ids[..size.vertices],
                outward: Way {
                    offsets: &out_offsets,
                    targets: &out_targets,
                },
                inward: Way {
                    offsets: &in_offsets,
                    targets: &in_sources,
                },
            };
            run_jobs(g, s, plan.jobs.count, plan.jobs.from, out, 0)
        }
    }
}

// What the desk program prints for a sheet; the number of bytes.
#[tactic(auto, unfolding(crate::specs::Desk::desk_output))]
pub fn answer(s: &[u8], out: &mut [u8]) -> usize
    ensures { written out.new result ≡ put_at out.old 0 (desk_output s.now) }
{
    match check(s) {
        Err(r) => put_refused(out, 0, r),
        Ok(plan) => print_plan(s, plan, out),
    }
}
