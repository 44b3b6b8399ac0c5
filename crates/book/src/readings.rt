// The calls that read the book.
ghost use Rattle.std.specs.Prelude.{◌≡◌, ◌≤◌, ◌<◌};
ghost use Rattle.basis.specs.Limits.{most_vertices};
ghost use Rattle.book.specs.Rules.{head_of, same_group, group_size, group_count, step_limit, largest};
ghost use Rattle.book.specs.One.{one};
ghost use Rattle.book.specs.Says.{says_headed, says_compared, says_reading};

use super::entry::{is_head, size_at};
use super::{Head, heads, walk, well_lent};
use basis::Refusal;
use basis::refusal::{NO_ROOM, NOT_THERE, UNSOUND};

// The head of `v`, with the number of moves from parent to parent that reach it.
pub fn head(entries: &[i64], v: usize) -> Result<Head, Refusal>
    ensures { says_headed result ≡ head_of (one entries.now) v }
{
    if !well_lent(entries) {
        return Err(Refusal::plain(NO_ROOM));
    }
    if entries.len() <= v {
        return Err(Refusal::plain(NOT_THERE));
    }
    walk(entries, v)
}

pub fn same_group(entries: &[i64], u: usize, v: usize) -> Result<bool, Refusal>
    ensures { says_compared result ≡ same_group (one entries.now) u v }
{
    let (g, h) = heads(entries, u, v)?;
    Ok(g == h)
}

// The size that the entry of the head of `v` says.
pub fn group_size(entries: &[i64], v: usize) -> Result<usize, Refusal>
    ensures { says_reading result ≡ group_size (one entries.now) v }
{
    let top = head(entries, v)?;
    let size = size_at(entries, top.head);
    if entries.len() < size {
        return Err(Refusal::plain(UNSOUND));
    }
    Ok(size)
}

// The heads in the area.
pub fn group_count(entries: &[i64]) -> Result<usize, Refusal>
    ensures { says_reading result ≡ group_count (one entries.now) }
{
    if !well_lent(entries) {
        return Err(Refusal::plain(NO_ROOM));
    }
    let mut count = 0;
    for v in 0..entries.len() {
        if is_head(entries, v) {
            count += 1;
        }
    }
    Ok(count)
}

// The largest k with 2 to the k at most `size`.
fn power_below(size: usize) -> usize
    requires { (0 < size) × (size ≤ most_vertices) }
    ensures { result ≡ largest 16 size }
{
    // Stays: by the leading zeros, the form that the rules name.
    let zeros = (size as u64).leading_zeros();
    (63 - zeros) as usize
}

// The largest k with 2 to the k at most the size of the group of `v`.
pub fn step_limit(entries: &[i64], v: usize) -> Result<usize, Refusal>
    ensures { says_reading result ≡ step_limit (one entries.now) v }
{
    let size = group_size(entries, v)?;
    Ok(power_below(size))
}
