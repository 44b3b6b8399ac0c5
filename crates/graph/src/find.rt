// Where an identifier stands.
ghost use Rattle.std.specs.Prelude.{◌≡◌};
ghost use Rattle.std.specs.Ordering.{partial_lt};
ghost use Rattle.graph.specs.Find.{bisect_by, Searched};

// Where a bisection for x ends: at a place that holds x, or at none. It compares by `<`, twice where it must: by `cmp`, soundness by search
// takes half as long again.
pub(crate) fn bisect<T: Copy + PartialOrd>(list: &[T], x: T) -> Option<usize>
    ensures { result ≡ bisect_by (partial_lt T.partial_cmp) x list.now x }
{
    let mut low = 0;
    let mut high = list.len();
    // Stays: a bisection's bounds close in from both ends, and `Searched.any_list` fixes the place on a list that doesn't rise, where std's
    // `binary_search` promises another.
    while low < high {
        let middle = low + (high - low) / 2;
        let there = list[middle];
        if there < x {
            low = middle + 1;
        } else if x < there {
            high = middle;
        } else {
            return Some(middle);
        }
    }
    None
}

// The place of an identifier in a list that rises; in any other list, where a bisection ends.
pub fn find(ids: &[i64], id: i64) -> Option<usize>
    ensures { Searched ids.now id result }
{
    bisect(ids, id)
}
