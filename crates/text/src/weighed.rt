// Edge lines with a weight, and the edge lines of a file that has weights or has none.
ghost use Rattle.std.specs.Prelude.{◌≡◌};
ghost use Rattle.text.specs.Line.{reader_says};
ghost use Rattle.text.specs.Weighed.{weight_form, weighed_line, listed_line, weighed_says};
ghost use Rattle.text.specs.Scan.{pair_at, two_at, scan_says};

use crate::count::{SPACE, Scan};
use crate::ident::field;
use crate::line::{Cursor, Fault};
use crate::weight::weight_rest;

// The second identifier and the weight of an edge line, from a place on.
fn tail_at(s: &[u8], at: usize) -> Result<Scan<Option<(i64, usize)>>, usize>
    ensures { scan_says result ≡ pair_at weight_form s.now at }
{
    let x = field(s, at, SPACE)?;
    let y = weight_rest(s, x.next)?;
    Ok(Scan {
        value: x.value.zip(Some(y.value as usize)),
        next: y.next,
    })
}

// The two identifiers and the weight of an edge line at a place.
fn weighed_at(s: &[u8], at: usize) -> Result<Scan<Option<(i64, (i64, usize))>>, usize>
    ensures { scan_says result ≡ two_at (pair_at weight_form) s.now at }
{
    let x = field(s, at, SPACE)?;
    let y = tail_at(s, x.next)?;
    Ok(Scan {
        value: x.value.zip(y.value),
        next: y.next,
    })
}

impl Cursor {
    // The edge line with a weight at this place.
    fn weighed_edge(self, s: &[u8]) -> (Option<Result<(i64, (i64, usize)), Fault>>, Cursor)
        ensures { reader_says result.1 result.0 ≡ weighed_line s.now self.at }
    {
        if s.len() <= self.at {
            return (None, self);
        }
        let (line, next) = self.line(weighed_at(s, self.at));
        (Some(line), next)
    }

    // The edge line at this place in a file that has weights or has none: then its weight is 0.
    // Stays: that 0 is what `Weighed.plain_form` says of such a line.
    pub fn listed_edge(
        self,
        s: &[u8],
        weighted: bool,
    ) -> (Option<Result<(i64, i64, usize), Fault>>, Cursor)
        ensures { weighed_says result.1 result.0 ≡ listed_line weighted s.now self.at }
    {
        if weighted {
            let (line, next) = self.weighed_edge(s);
            return match line {
                None => (None, next),
                Some(Err(fault)) => (Some(Err(fault)), next),
                Some(Ok((u, (v, weight)))) => (Some(Ok((u, v, weight))), next),
            };
        }
        let (line, next) = self.edge(s);
        match line {
            None => (None, next),
            Some(read) => match read {
                Err(fault) => (Some(Err(fault)), next),
                Ok((u, v)) => (Some(Ok((u, v, 0))), next),
            },
        }
    }
}
