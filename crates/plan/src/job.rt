// Job lines: `bfs ID`, `wcc`, `cdlp N`, `lcc`.
ghost use Rattle.std.specs.Prelude.{◌≡◌, Bool, ℤ};
ghost use Rattle.basis.specs.Refusal.{said};
ghost use Rattle.plan.specs.Jobs.{job_line};
ghost use Rattle.plan.specs.Steps.{job_by, numbered_at};

use crate::line::{begins_at, sheet_fault};
use basis::Refusal;
use basis::refusal::{BAD_FORM, OUT_OF_RANGE};
use text::count::LF;
use text::ident::field;

// A job, with its number where it has one.
#[derive(Clone, Copy, Debug, PartialEq, Eq)]
pub enum Job {
    Bfs(i64),
    Wcc,
    Cdlp(i64),
    Lcc,
}

// The job at a place whose number stands at another, with the place past its line; of BFS or of CDLP, as `job` makes it.
fn numbered<F: Fn(i64) -> Job>(
    s: &[u8],
    at: usize,
    from: usize,
    job: F,
) -> Result<(Job, usize), Refusal>
    requires { F.IsAlwaysCallable job }
    ensures { (bfs : Bool) → ((z : ℤ) (j : _) → F.post job z j → j ≡ job_by bfs z) → said result ≡ numbered_at s.now at from bfs }
{
    let Ok(scan) = field(s, from, LF) else {
        return Err(sheet_fault(s, at, BAD_FORM));
    };
    let Some(z) = scan.value else {
        return Err(sheet_fault(s, at, OUT_OF_RANGE));
    };
    Ok((job(z), scan.next))
}

// The job line at a place, and the place past it.
pub fn read_job(s: &[u8], at: usize) -> Result<(Job, usize), Refusal>
    ensures { said result ≡ job_line s.now at }
{
    if begins_at(s, at, b"bfs ") {
        return numbered(s, at, at + 4, Job::Bfs);
    }
    if begins_at(s, at, b"cdlp ") {
        return numbered(s, at, at + 5, Job::Cdlp);
    }
    if begins_at(s, at, b"wcc\n") {
        return Ok((Job::Wcc, at + 4));
    }
    if begins_at(s, at, b"lcc\n") {
        return Ok((Job::Lcc, at + 4));
    }
    Err(sheet_fault(s, at, BAD_FORM))
}
