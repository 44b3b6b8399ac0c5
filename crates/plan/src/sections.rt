// The sections of a sheet, each a count line and so many lines, and the check of the whole.
ghost use Rattle.std.specs.Prelude.{◌≡◌, ◌≤◌, ℕ, Bool, true, false, List};
ghost use Rattle.basis.specs.Limits.{desk_edges};
ghost use Rattle.basis.specs.Refusal.{said};
ghost use Rattle.plan.specs.Sheet.{mode_line, count_line, line_past, lines_past, section, sections, sheet_check};

use crate::job::read_job;
use crate::line::{begins_at, sheet_fault};
use basis::Refusal;
use basis::limits::{DESK_EDGES, DESK_VERTICES};
use basis::refusal::{BAD_FORM, SHEET_FILE, TOO_MANY};
use text::count::{LF, count, has, line_end};

// How many jobs a sheet may have.
pub const MOST_JOBS: usize = 16;

// How many bytes a sheet may have.
pub const MOST_BYTES: usize = 65536;

// How many lines a section has, where they begin, and the place past them.
#[derive(Clone, Copy, Debug, PartialEq, Eq)]
pub struct Block {
    pub count: usize,
    pub from: usize,
    pub to: usize,
}

// Whether the graph is directed, and where the three sections stand.
// Stays: `directed` as a flag. It is what the first line says, and the load takes it as the number of its mode.
#[derive(Clone, Copy, Debug, PartialEq, Eq)]
pub struct Plan {
    pub directed: bool,
    pub vertices: Block,
    pub edges: Block,
    pub jobs: Block,
}

// The first line: whether the graph is directed, and the place past it.
fn mode_line(s: &[u8]) -> Result<(bool, usize), Refusal>
    ensures { said result ≡ mode_line s.now }
{
    if begins_at(s, 0, b"directed\n") {
        return Ok((true, 9));
    }
    if begins_at(s, 0, b"undirected\n") {
        return Ok((false, 11));
    }
    Err(sheet_fault(s, 0, BAD_FORM))
}

// The count on the line at a place, and the place past it.
fn count_line(s: &[u8], limit: usize, at: usize) -> Result<(usize, usize), Refusal>
    requires { limit ≤ desk_edges }
    ensures { said result ≡ count_line limit s.now at }
{
    let Ok(scan) = count(s, at) else {
        return Err(sheet_fault(s, at, BAD_FORM));
    };
    if !has(s, scan.next, LF) {
        return Err(sheet_fault(s, at, BAD_FORM));
    }
    let n = scan.value as usize;
    if limit < n {
        return Err(sheet_fault(s, at, TOO_MANY));
    }
    Ok((n, scan.next + 1))
}

// Past the line at a place, which must be ended.
fn past_line(s: &[u8], at: usize) -> Result<usize, Refusal>
    ensures { said result ≡ line_past false s.now at }
{
    let end = line_end(s, at);
    if has(s, end, LF) {
        Ok(end + 1)
    } else {
        Err(sheet_fault(s, at, BAD_FORM))
    }
}

// Past the job line at a place.
fn past_job(s: &[u8], at: usize) -> Result<usize, Refusal>
    ensures { said result ≡ line_past true s.now at }
{
    let (_, next) = read_job(s, at)?;
    Ok(next)
}

// Past so many lines, each as `past` goes past it.
fn lines_past<F: Fn(usize) -> Result<usize, Refusal>>(
    past: F,
    count: usize,
    from: usize,
) -> Result<usize, Refusal>
    requires { F.IsAlwaysCallable past }
    ensures { (jobs : Bool) (s : List ℕ) → ((place : ℕ) (r : _) → F.post past place r → said r ≡ line_past jobs s place)
        → said result ≡ lines_past jobs count s from }
{
    let mut at = from;
    for _ in 0..count {
        at = past(at)?;
    }
    Ok(at)
}

// The section at a place, each of its lines as `past` goes past it.
#[tactic(auto, unfolding(crate::specs::Sheet::section))]
fn read_section<F: Fn(usize) -> Result<usize, Refusal>>(
    s: &[u8],
    past: F,
    limit: usize,
    at: usize,
) -> Result<Block, Refusal>
    requires few { limit ≤ desk_edges }
    requires callable { F.IsAlwaysCallable past }
    ensures { (jobs : Bool) → ((place : ℕ) (r : _) → F.post past place r → said r ≡ line_past jobs s.now place)
        → said result ≡ section jobs limit s.now at }
{
    let (count, from) = count_line(s, limit, at)?;
    let to = lines_past(past, count, from)?;
    Ok(Block { count, from, to })
}

// The mode and the three sections, whatever stands after them.
#[tactic(auto, unfolding(crate::specs::Sheet::sections))]
pub fn read_sections(s: &[u8]) -> Result<Plan, Refusal>
    ensures { said result ≡ sections s.now }
{
    let (directed, at) = mode_line(s)?;
    let vertices = read_section(s, |at| past_line(s, at), DESK_VERTICES, at)?;
    let edges = read_section(s, |at| past_line(s, at), DESK_EDGES, vertices.to)?;
    let jobs = read_section(s, |at| past_job(s, at), MOST_JOBS, edges.to)?;
    Ok(Plan {
        directed,
        vertices,
        edges,
        jobs,
    })
}

// A sheet's plan, or its first fault.
#[tactic(auto, unfolding(crate::specs::Sheet::sheet_check))]
pub fn check(s: &[u8]) -> Result<Plan, Refusal>
    ensures { said result ≡ sheet_check s.now }
{
    if MOST_BYTES < s.len() {
        return Err(Refusal::at(TOO_MANY, SHEET_FILE, 0));
    }
    let plan = read_sections(s)?;
    let end = plan.jobs.to;
    if end < s.len() {
        return Err(sheet_fault(s, end, BAD_FORM));
    }
    Ok(plan)
}
