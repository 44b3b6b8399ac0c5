// A program beside the layers. Reads records on standard input, at most 65,536 bytes, and prints what the line readers answer of each: the
// refusal's number and column, `0 0` of a good line, `end` where no line is left. A record is a byte for the kind of line, `v` vertex, `e`
// edge, `c` claim, `l` claim of LCC, and a line up to its LF. With a capital the reader is lent the input up to that LF alone, so that the
// line ends with the file.
#![tactic(auto)]

ghost use Rattle.std.specs.Prelude.{◌≤◌, ◌<◌, IfOk, length};

use std::io;
use std::io::Read;
use text::Cursor;
use text::count::LF;
use text::line::Fault;

// How many bytes are read.
const MOST: usize = 65536;

// What is answered of a line, on a line of its own.
fn shown<T: Drop>(rt: &impl Print, line: Option<Result<T, Fault>>) -> io::Result<()> {
    match line {
        None => println!(rt; "end"),
        Some(Err(fault)) => println!(rt; "{} {}", fault.number, fault.column),
        Some(Ok(_)) => println!(rt; "0 0"),
    }
}

// The line of a kind.
fn read_line(rt: &impl Print, line: &[u8], kind: u8) -> io::Result<()> {
    let place = Cursor { at: 0 };
    match kind {
        b'v' => shown(rt, place.vertex(line).0),
        b'e' => shown(rt, place.edge(line).0),
        b'c' => shown(rt, place.claim(line).0),
        _ => shown(rt, place.coefficient_claim(line).0),
    }
}

// A record, with its LF if it has one.
fn read_record(rt: &impl Print, record: &[u8]) -> io::Result<()> {
    match record.split_first() {
        None => Ok(()),
        Some((kind, line)) if *kind < b'a' => {
            let line = line.strip_suffix(b"\n").unwrap_or(line);
            read_line(rt, line, kind.to_ascii_lowercase())
        }
        Some((kind, line)) => read_line(rt, line, *kind),
    }
}

// All records, one after the other.
fn read_records(rt: &impl Print, s: &[u8]) -> io::Result<()> {
    for record in s.split_inclusive(|byte| *byte == LF) {
        read_record(rt, record)?;
    }
    Ok(())
}

// Reads until `bytes` is full or the input ends, and says how many bytes it put at the start of `bytes`.
// Stays: fixed memory. `read_to_end` takes a heap, and `read_exact` keeps no count where the input ends early. `desk` has the same
// function: a library may not, since no promise fixes what a read gives.
fn read_full(input: &mut impl Read, bytes: &mut [u8]) -> io::Result<usize>
    ensures { IfOk result (λ n. n ≤ length bytes.new) }
{
    let mut done = 0;
    while done < bytes.len() {
        let n = input.read(&mut bytes[done..])?;
        if n == 0 {
            break;
        }
        done += n;
    }
    Ok(done)
}

fn main(rt: HostRuntime) -> io::Result<()> {
    let mut bytes = [0u8; MOST];
    let n = read_full(&mut rt.stdin(), &mut bytes)?;
    read_records(&rt, &bytes[..n])
}
