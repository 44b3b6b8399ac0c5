// A sheet's jobs: each runs its kernel on the loaded graph and prints its lines. `line` is the job's line with its LF, and the graph's
// identifiers are just those of its vertices. Each kernel's areas are zeros when it is called.
ghost use Rattle.std.specs.Prelude.{◌≡◌, ℕ, List};
ghost use Rattle.write.specs.Put.{written, put_at};
ghost use Rattle.graph.specs.Sound.{standing};
ghost use Rattle.kernels.specs.Answer.{says};
ghost use Rattle.sheet.specs.Jobs.{answer_text, bfs_text, wcc_text, cdlp_text, lcc_text, job_text, jobs_text};

use basis::Refusal;
use basis::limits::DESK_VERTICES;
use bfs::bfs;
use cdlp::cdlp;
use graph::Lent;
use lcc::lcc;
use listing::{put_head, put_pairs, put_ratios, put_refused};
use plan::Job;
use plan::job::read_job;
use wcc::wcc;

// What a kernel's answer prints: its refusal, or the job's line, the count line, and behind them what `lines` writes.
fn put_answer<F: FnOnce(&mut [u8], usize) -> usize>(
    x: Result<(), Refusal>,
    n: usize,
    line: &[u8],
    lines: F,
    out: &mut [u8],
    at: usize,
) -> usize
    requires { F.IsAlwaysCallable lines }
    ensures { (text : List ℕ)
        → ((o : _) (place next : ℕ) (p : _) → F.post lines o place next p → written p.now next ≡ put_at o.now place text)
        → written out.new result ≡ put_at out.old at (answer_text n line.now (says x) text) }
{
    match x {
        Err(r) => put_refused(out, at, r),
        Ok(()) => {
            let next = put_head(out, at, line, n);
            lines(out, next)
        }
    }
}

// What a BFS job prints.
fn bfs_job(g: Lent, root: i64, line: &[u8], out: &mut [u8], at: usize) -> usize
    ensures { written out.new result ≡ put_at out.old at (bfs_text (standing g.entry) root line.now) }
{
    let mut depth = [0i64; DESK_VERTICES];
    let mut queue = [0usize; DESK_VERTICES];
    let x = bfs(g, root, &mut depth, &mut queue);
    put_answer(
        x,
        g.size.vertices,
        line,
        |out, at| put_pairs(out, at, g.ids, &depth),
        out,
        at,
    )
}

// What a WCC job prints.
#[tactic(auto, unfolding(crate::specs::Jobs::wcc_text))]
fn wcc_job(g: Lent, line: &[u8], out: &mut [u8], at: usize) -> usize
    ensures { written out.new result ≡ put_at out.old at (wcc_text (standing g.entry) line.now) }
{
    let mut labels = [0i64; DESK_VERTICES];
    let mut heads = [0usize; DESK_VERTICES];
    let x = wcc(g, &mut labels, &mut heads);
    put_answer(
        x,
        g.size.vertices,
        line,
        |out, at| put_pairs(out, at, g.ids, &labels),
        out,
        at,
    )
}

// What a CDLP job prints.
fn cdlp_job(g: Lent, iterations: i64, line: &[u8], out: &mut [u8], at: usize) -> usize
    ensures { written out.new result ≡ put_at out.old at (cdlp_text (standing g.entry) iterations line.now) }
{
    let mut labels = [0i64; DESK_VERTICES];
    let mut places = [0usize; DESK_VERTICES];
    let mut next_places = [0usize; DESK_VERTICES];
    let mut counts = [0usize; DESK_VERTICES];
    let x = cdlp(
        g,
        iterations,
        &mut labels,
        &mut places,
        &mut next_places,
        &mut counts,
    );
    put_answer(
        x,
        g.size.vertices,
        line,
        |out, at| put_pairs(out, at, g.ids, &labels),
        out,
        at,
    )
}

// What an LCC job prints.
#[tactic(auto, unfolding(crate::specs::Jobs::lcc_text))]
fn lcc_job(g: Lent, line: &[u8], out: &mut [u8], at: usize) -> usize
    ensures { written out.new result ≡ put_at out.old at (lcc_text (standing g.entry) line.now) }
{
    let mut numerators = [0usize; DESK_VERTICES];
    let mut denominators = [0usize; DESK_VERTICES];
    let mut work = [0usize; DESK_VERTICES];
    let x = lcc(g, &mut numerators, &mut denominators, &mut work);
    put_answer(
        x,
        g.size.vertices,
        line,
        |out, at| put_ratios(out, at, g.ids, &numerators, &denominators),
        out,
        at,
    )
}

// What a job prints.
fn run_job(g: Lent, job: Job, line: &[u8], out: &mut [u8], at: usize) -> usize
    ensures { written out.new result ≡ put_at out.old at (job_text (standing g.entry) line.now job) }
{
    match job {
        Job::Bfs(root) => bfs_job(g, root, line, out, at),
        Job::Wcc => wcc_job(g, line, out, at),
        Job::Cdlp(iterations) => cdlp_job(g, iterations, line, out, at),
        Job::Lcc => lcc_job(g, line, out, at),
    }
}

// So many jobs, whose lines stand in the sheet from a place on.
pub fn run_jobs(g: Lent, s: &[u8], count: usize, from: usize, out: &mut [u8], at: usize) -> usize
    ensures { written out.new result ≡ put_at out.old at (jobs_text (standing g.entry) s.now count from) }
{
    let mut next = at;
    let mut place = from;
    for _ in 0..count {
        let Ok((job, end)) = read_job(s, place) else {
            return next;
        };
        next = run_job(g, job, &s[place..end], out, next);
        place = end;
    }
    next
}
