// A program beside the layers. Runs what the rules say to run at the library's limits; what it prints is stored beside it.
#![tactic(auto)]

use basis::Refusal;
use basis::limits::MOST_VERTICES;
use graph::Size;
use load::Limits;
use std::io;

// One line fewer than a vertex file may have.
const ONE_FEWER: usize = MOST_VERTICES - 1;

// One line more.
const ONE_MORE: usize = MOST_VERTICES + 1;

// What a load answers, on a line of its own.
fn shown(rt: &impl Print, answer: Result<Size, Refusal>) -> io::Result<()> {
    match answer {
        Ok(size) => println!(rt; "loaded {} {}", size.vertices, size.arcs),
        Err(r) => println!(rt; "{r}"),
    }
}

// A load of a vertex file and no edges into areas of the library's size.
fn run(rt: &impl Print, vertices: &[u8]) -> io::Result<()> {
    let mut ids = [0i64; MOST_VERTICES];
    let mut out_offsets = [0usize; MOST_VERTICES + 1];
    let mut out_targets = [0usize; 1];
    let mut in_offsets = [0usize; MOST_VERTICES + 1];
    let mut in_sources = [0usize; 1];
    shown(
        rt,
        load::load(
            1,
            vertices,
            b"",
            &mut ids,
            &mut out_offsets,
            &mut out_targets,
            &mut in_offsets,
            &mut in_sources,
        ),
    )
}

// A load at limits above the library's, which count as the library's.
// Stays: beside `run`, whose call has no limits and whose areas have other lengths.
fn run_above(rt: &impl Print, vertices: &[u8]) -> io::Result<()> {
    let mut ids = [0i64; 1];
    let mut out_offsets = [0usize; 1];
    let mut out_targets = [0usize; 1];
    let mut in_offsets = [0usize; 1];
    let mut in_sources = [0usize; 1];
    shown(
        rt,
        load::load_within(
            Limits {
                vertices: 70000,
                edges: 0,
            },
            1,
            vertices,
            b"",
            &mut ids,
            &mut out_offsets,
            &mut out_targets,
            &mut in_offsets,
            &mut in_sources,
        ),
    )
}

// The first bytes of a file, as many as it has.
fn front(text: &[u8], end: usize) -> &[u8] {
    &text[..end.min(text.len())]
}

// Vertex files of one line fewer than the limit, as many and one more, the numbers from 0 on, each loaded once it is written; the end of
// the last.
fn fill(rt: &impl Print, text: &mut [u8]) -> io::Result<usize> {
    let mut at = 0;
    for line in 0..ONE_MORE {
        let past = write::numbers::put_number(text, at, line);
        at = write::bytes::put(text, past, b'\n');
        if ONE_FEWER <= line + 1 {
            run(rt, front(text, at))?;
        }
    }
    Ok(at)
}

// Joining a vertex to itself merges nothing.
fn joined_to_itself(rt: &impl Print) -> io::Result<()> {
    let mut entries = [0i64; 3];
    if let Err(r) = book::opening::open_book(&mut entries) {
        println!(rt; "{r}")?;
    }
    match book::joining::join(&mut entries, 1, 1) {
        Ok(joining) => print!(rt; "{joining}")?,
        Err(r) => print!(rt; "{r}")?,
    }
    match book::readings::group_count(&entries) {
        Ok(n) => println!(rt; ", groups: {n}"),
        Err(r) => println!(rt; "{r}"),
    }
}

fn main(rt: HostRuntime) -> io::Result<()> {
    let mut text = [0u8; 400000];
    run(&rt, b"")?;
    let end = fill(&rt, &mut text)?;
    joined_to_itself(&rt)?;
    run_above(&rt, front(&text, end))
}
