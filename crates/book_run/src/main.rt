// A program beside the layers. Runs the cases of the group book that are run and compared: each line has the call, what it answered, and
// whether the area stayed.
#![tactic(auto)]

mod print;

use print::{area, compared, headed, joined, joined_each, opened, reading, stayed};
use std::io;

// The least number, which has no negative.
const LEAST: i64 = -9223372036854775808;

// A join in a book of four vertices, behind the words that say what it shows; the area comes by value, so that what the call leaves can be
// compared.
fn join(rt: &impl Print, shows: &str, before: [i64; 4], u: usize, v: usize) -> io::Result<()> {
    let mut entries = before;
    print!(rt; "{shows}join {u} {v}: ")?;
    joined(rt, book::joining::join(&mut entries, u, v))?;
    stayed(rt, entries == before)
}

// Every call that reads, on one vertex.
fn read(rt: &impl Print, entries: &[i64], v: usize) -> io::Result<()> {
    print!(rt; "head {v}: ")?;
    headed(rt, book::readings::head(entries, v))?;
    print!(rt; "; with 3: ")?;
    compared(rt, book::readings::same_group(entries, v, 3))?;
    print!(rt; "; size: ")?;
    reading(rt, book::readings::group_size(entries, v))?;
    print!(rt; "; limit: ")?;
    reading(rt, book::readings::step_limit(entries, v))?;
    print!(rt; "; count: ")?;
    reading(rt, book::readings::group_count(entries))?;
    println!(rt; "")
}

// Four vertices, joins 0-1, 2-3, 1-3: the rules' own example P12.
fn worked(rt: &impl Print) -> io::Result<()> {
    let mut entries = [7i64; 4];
    print!(rt; "P12: ")?;
    opened(rt, book::opening::open_book(&mut entries))?;
    for (u, v) in [(0, 1), (2, 3), (1, 3)] {
        print!(rt; ", ")?;
        joined(rt, book::joining::join(&mut entries, u, v))?;
    }
    print!(rt; ": entries")?;
    area(rt, &entries)?;
    println!(rt; "")?;
    read(rt, &entries, 1)
}

fn sound(rt: &impl Print) -> io::Result<()> {
    join(rt, "a vertex and itself: ", [-2, 0, -1, -1], 2, 2)?;
    join(rt, "two of one group: ", [-2, 0, -1, -1], 1, 0)?;
    join(rt, "vertex 4 of four: ", [-2, 0, -1, -1], 0, 4)?;
    join(rt, "the smaller under the larger: ", [-2, 0, -1, -1], 2, 1)
}

fn damaged_walks(rt: &impl Print) -> io::Result<()> {
    join(rt, "a walk that leaves the area: ", [-1, 9, -1, -1], 1, 0)?;
    read(rt, &[-1, 9, -1, -1], 1)?;
    join(rt, "a cycle: ", [1, 0, -1, -1], 2, 0)?;
    read(rt, &[1, 0, -1, -1], 0)?;
    join(
        rt,
        "an entry that names its own place: ",
        [0, -1, -1, -1],
        0,
        1,
    )?;
    read(rt, &[0, -1, -1, -1], 0)
}

fn damaged_sizes(rt: &impl Print) -> io::Result<()> {
    join(rt, "a sum above the length: ", [-3, -2, -1, -1], 0, 1)?;
    join(rt, "below minus the length: ", [-5, -1, -1, -1], 0, 1)?;
    join(rt, "below minus the length: ", [-5, -1, -1, -1], 1, 0)?;
    join(
        rt,
        "below minus the length, one group: ",
        [-5, 0, -1, -1],
        0,
        1,
    )?;
    read(rt, &[-5, -1, -1, -1], 0)?;
    print!(rt; "minus the length: ")?;
    read(rt, &[-4, -1, -1, -1], 0)?;
    join(rt, "the least number: ", [LEAST, -1, -1, -1], 0, 1)?;
    join(rt, "the least number twice: ", [LEAST, LEAST, -1, -1], 1, 0)?;
    print!(rt; "the least number: ")?;
    read(rt, &[LEAST, -1, -1, -1], 0)?;
    join(
        rt,
        "a damaged walk and no such vertex: ",
        [-1, 9, -1, -1],
        1,
        4,
    )
}

// A path of eighteen vertices: sixteen moves are a walk, seventeen are not.
fn path(rt: &impl Print) -> io::Result<()> {
    let entries = [
        -18, 0, 1, 2, 3, 4, 5, 6, 7, 8, 9, 10, 11, 12, 13, 14, 15, 16,
    ];
    print!(rt; "sixteen moves: ")?;
    read(rt, &entries, 16)?;
    print!(rt; "seventeen moves: ")?;
    read(rt, &entries, 17)
}

// Every call, an opening first.
fn every(rt: &impl Print, entries: &mut [i64]) -> io::Result<()> {
    print!(rt; "open: ")?;
    opened(rt, book::opening::open_book(&mut *entries))?;
    print!(rt; "; join: ")?;
    joined(rt, book::joining::join(&mut *entries, 0, 1))?;
    print!(rt; "; with each: ")?;
    joined_each(rt, book::joining::join_each(&mut *entries, 0, &[1, 2]))?;
    print!(rt; "; ")?;
    read(rt, entries, 0)
}

// An area of one place more than 65,536.
fn too_long(rt: &impl Print) -> io::Result<()> {
    let mut entries = [7i64; 65537];
    print!(rt; "65,537 places: ")?;
    every(rt, &mut entries)?;
    print!(rt; "65,537 places")?;
    stayed(rt, entries.iter().all(|entry| *entry == 7))
}

// A vertex joined with each of a list, behind the words that say what it shows; then what the area holds.
fn join_each(
    rt: &impl Print,
    shows: &str,
    before: [i64; 4],
    u: usize,
    others: &[usize],
) -> io::Result<()> {
    let mut entries = before;
    print!(rt; "{shows}join {u} with each: ")?;
    joined_each(rt, book::joining::join_each(&mut entries, u, others))?;
    print!(rt; ": entries")?;
    area(rt, &entries)?;
    println!(rt; "")
}

fn lists(rt: &impl Print) -> io::Result<()> {
    join_each(rt, "with 1, 0, 3: ", [-1, -1, -1, -1], 0, &[1, 0, 3])?;
    join_each(rt, "with none: ", [9, 9, 9, 9], 7, &[])?;
    join_each(rt, "with 1, 4, 3: ", [-1, -1, -1, -1], 0, &[1, 4, 3])?;
    join_each(rt, "vertex 4 of four: ", [-1, -1, -1, -1], 4, &[0])?;
    join_each(
        rt,
        "the least number behind one group: ",
        [-2, LEAST, 0, -1],
        0,
        &[2, 1, 3],
    )?;
    join_each(
        rt,
        "its own place behind one merged: ",
        [-1, -1, 2, -1],
        0,
        &[1, 2, 3],
    )
}

fn main(rt: HostRuntime) -> io::Result<()> {
    worked(&rt)?;
    sound(&rt)?;
    damaged_walks(&rt)?;
    damaged_sizes(&rt)?;
    path(&rt)?;
    too_long(&rt)?;
    lists(&rt)
}
