// What the cases print, on standard output.
use basis::Refusal;
use book::{Head, Joining, Stopped};
use std::io;

// What an opening answers.
pub fn opened(rt: &impl Print, answer: Result<(), Refusal>) -> io::Result<()> {
    match answer {
        Ok(()) => print!(rt; "ready"),
        Err(r) => print!(rt; "{r}"),
    }
}

// What a join answers.
pub fn joined(rt: &impl Print, answer: Result<Joining, Refusal>) -> io::Result<()> {
    match answer {
        Ok(joining) => print!(rt; "{joining}"),
        Err(r) => print!(rt; "{r}"),
    }
}

// What a series of joins answers.
pub fn joined_each(rt: &impl Print, answer: Result<usize, Stopped>) -> io::Result<()> {
    match answer {
        Ok(merges) => print!(rt; "all, {merges} merged"),
        Err(s) => print!(rt;
            "stopped after {}, {} merged: {}",
            s.joined, s.merges, s.refusal
        ),
    }
}

// A head, and the moves to it.
pub fn headed(rt: &impl Print, answer: Result<Head, Refusal>) -> io::Result<()> {
    match answer {
        Ok(h) => print!(rt; "{} in {}", h.head, h.moves),
        Err(r) => print!(rt; "{r}"),
    }
}

// Whether two vertices are of one group.
pub fn compared(rt: &impl Print, answer: Result<bool, Refusal>) -> io::Result<()> {
    match answer {
        Ok(true) => print!(rt; "one group"),
        Ok(false) => print!(rt; "two groups"),
        Err(r) => print!(rt; "{r}"),
    }
}

// A number read off the book.
pub fn reading(rt: &impl Print, answer: Result<usize, Refusal>) -> io::Result<()> {
    match answer {
        Ok(n) => print!(rt; "{n}"),
        Err(r) => print!(rt; "{r}"),
    }
}

// The numbers of an area, each after a space.
pub fn area(rt: &impl Print, entries: &[i64]) -> io::Result<()> {
    for entry in entries {
        print!(rt; " {entry}")?;
    }
    Ok(())
}

// Whether the area stayed as it was.
pub fn stayed(rt: &impl Print, yes: bool) -> io::Result<()> {
    if yes {
        println!(rt; ", area as it was")
    } else {
        println!(rt; ", area changed")
    }
}
