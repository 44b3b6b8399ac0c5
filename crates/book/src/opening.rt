// Opening the book.
ghost use Rattle.std.specs.Prelude.{◌≡◌};
ghost use Rattle.book.specs.Rules.{outcome, open_book};
ghost use Rattle.book.specs.One.{one_book};
ghost use Rattle.book.specs.Says.{says_opened};

use super::well_lent;
use basis::Refusal;
use basis::area::fill;
use basis::refusal::NO_ROOM;

// What a group of one holds: minus its size.
const FRESH: i64 = -1;

// Each vertex its own group: a new series begins.
pub fn open_book(entries: &mut [i64]) -> Result<(), Refusal>
    ensures { outcome (says_opened result) entries.new ≡ open_book one_book entries.old }
{
    if !well_lent(entries) {
        return Err(Refusal::plain(NO_ROOM));
    }
    fill(entries, FRESH);
    Ok(())
}
