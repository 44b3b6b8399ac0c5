// An entry of the area: a parent at an ordinary vertex; at a head, where it is below 0, minus the group's size.
ghost use Rattle.std.specs.Prelude.{◌≡◌, false, ◌+◌, ◌<◌, min, length};
ghost use Rattle.book.specs.Rules.{to, is_stop};
ghost use Rattle.book.specs.One.{next_here, size_here};
ghost use Rattle.book.specs.Steps.{AtHead};

// Whether `v` is a head.
pub(crate) fn is_head(entries: &[i64], v: usize) -> bool
    requires { v < length entries.now }
    ensures { result ≡ is_stop (next_here entries.now v) }
{
    entries[v] < 0
}

// The parent of `v`, which is no head.
pub(crate) fn parent(entries: &[i64], v: usize) -> usize
    requires { (v < length entries.now) × (is_stop (next_here entries.now v) ≡ false) }
    ensures { next_here entries.now v ≡ to result }
{
    entries[v] as usize
}

// The size at the head `h`, or one more than the length where its entry is below minus the length, a size that no group has. The entry is
// compared before it is negated: the least number has no negative.
pub(crate) fn size_at(entries: &[i64], h: usize) -> usize
    requires { AtHead entries.now h }
    ensures { result ≡ min (size_here entries.now h) (length entries.now + 1) }
{
    let entry = entries[h];
    if entry < -(entries.len() as i64) {
        return entries.len() + 1;
    }
    -entry as usize
}
