// Layer desk. The desk program: reads a sheet on standard input and writes what `answer` prints for it. Of a sheet that is too long it
// reads 65,537 bytes, one more than a sheet may have, and they print what the whole of it prints (`sheet` `Room.cut-prints`).
#![tactic(auto)]

ghost use Rattle.std.specs.Prelude.{◌≡◌, ◌≤◌, IfOk, length};
ghost use Rattle.desk.specs.Whole.{area_places, SheetAreas, Whole};

use plan::sections::MOST_BYTES;
use sheet::answer;
use std::io;
use std::io::Read;

// How many places the area for the output has: enough for the longest output of a sheet.
const AREA: usize = 760000;

// An area for the longest output of a sheet.
fn area() -> [u8; AREA]
    ensures { area_places ≡ length result }
{
    [0; AREA]
}

// All that the sheet prints whose first n bytes were read, in an area that has room for it.
fn output<'b, 'o>(bytes: &'b [u8], n: usize, out: &'o mut [u8]) -> &'o [u8]
    requires { SheetAreas n bytes.now out.old }
    ensures { Whole n bytes.now result.now }
{
    let m = answer(&bytes[..n], out);
    let whole = &out[..];
    &whole[..m]
}

// Reads until `bytes` is full or the input ends, and says how many bytes it put at the start of `bytes`.
//
// Stays: the place moves by what the reader says. Of the library's forms `read_exact` refuses an input that is shorter, `read_to_end` puts
// it on the heap, and `io::copy` reads on until the input ends.
fn read_full(input: &mut impl Read, bytes: &mut [u8]) -> io::Result<usize>
    ensures { IfOk result (λ n. n ≤ length bytes.new) }
{
    let mut done = 0;
    while done < bytes.len() {
        let n = input.read(&mut bytes[done..])?;
        if n == 0 {
            break;
        }
        done += n;
    }
    Ok(done)
}

fn main(rt: HostRuntime) -> io::Result<()> {
    let mut bytes = [0u8; MOST_BYTES + 1];
    let mut out = area();
    let n = read_full(&mut rt.stdin(), &mut bytes)?;
    rt.write_all(output(&bytes, n, &mut out))
}
