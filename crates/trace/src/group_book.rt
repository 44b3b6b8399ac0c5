// The seven calls of the group book, in one area that the host lends.
ghost use Rattle.std.specs.Prelude.{◌≡◌};
ghost use Rattle.book.specs.Rules.{open_book, join_book, head_of, same_group, group_size, group_count, step_limit};
ghost use Rattle.book.specs.One.{one, one_book};
ghost use Rattle.trace.specs.Code.{coded, nothing};
ghost use Rattle.trace.specs.Book.{join_value, head_value, same_value, reading_value, book_told, book_tells};

use crate::code::code;
use book::joining::join;
use book::opening::open_book;
use book::readings::{group_count, group_size, head, same_group, step_limit};

#[unsafe(no_mangle)]
pub extern "C" fn trace_book_open(entries: &mut [i64]) -> u64
    ensures { book_told result entries.new ≡ book_tells nothing (open_book one_book entries.old) }
{
    code(open_book(entries))
}

#[unsafe(no_mangle)]
pub extern "C" fn trace_book_join(entries: &mut [i64], u: usize, v: usize) -> u64
    ensures { book_told result entries.new ≡ book_tells join_value (join_book one_book entries.old u v) }
{
    code(join(entries, u, v))
}

#[unsafe(no_mangle)]
pub extern "C" fn trace_book_head(entries: &[i64], v: usize) -> u64
    ensures { result ≡ coded (head_of (one entries.now) v) head_value }
{
    code(head(entries, v))
}

#[unsafe(no_mangle)]
pub extern "C" fn trace_book_same(entries: &[i64], u: usize, v: usize) -> u64
    ensures { result ≡ coded (same_group (one entries.now) u v) same_value }
{
    code(same_group(entries, u, v))
}

#[unsafe(no_mangle)]
pub extern "C" fn trace_book_size(entries: &[i64], v: usize) -> u64
    ensures { result ≡ coded (group_size (one entries.now) v) reading_value }
{
    code(group_size(entries, v))
}

#[unsafe(no_mangle)]
pub extern "C" fn trace_book_count(entries: &[i64]) -> u64
    ensures { result ≡ coded (group_count (one entries.now)) reading_value }
{
    code(group_count(entries))
}

#[unsafe(no_mangle)]
pub extern "C" fn trace_book_limit(entries: &[i64], v: usize) -> u64
    ensures { result ≡ coded (step_limit (one entries.now) v) reading_value }
{
    code(step_limit(entries, v))
}
