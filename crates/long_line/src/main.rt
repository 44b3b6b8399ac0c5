// A program beside the layers. Reads a vertex line of a million digits 9 and prints what is said of it: the refusal's number and the place.
#![tactic(auto)]

ghost use Rattle.std.specs.Prelude.{◌≡◌, length};

use std::io;
use text::Cursor;
use text::count::{LF, NINE};

// How many digits the line has.
const DIGITS: usize = 1000000;

// A line's digits, with room for its LF.
fn nines() -> [u8; DIGITS + 1]
    ensures { 1000001 ≡ length result }
{
    [NINE; DIGITS + 1]
}

fn main(rt: HostRuntime) -> io::Result<()> {
    let mut s = nines();
    s[DIGITS] = LF;
    let (line, place) = Cursor { at: 0 }.vertex(&s);
    let n = match line {
        None => 0,
        Some(Err(fault)) => fault.number,
        Some(Ok(_)) => 1,
    };
    println!(rt; "{n} {}", place.at)
}
