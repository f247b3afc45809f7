// The program of document 01: reads a map file from standard input and prints its lines. The text is made by `text::write_listing`; this
// reads and writes.
#![tactic(auto)]

ghost use Rattle.std.specs.Io.{ReadsAtMost};

use std::io;
use std::io::Read;

// Reads until `buf` is full or the input ends, and answers how many bytes it put at the start of `buf`. Each call asks for all that is left, since `io::copy`,
// which asks for 8,192 bytes, loses the rest of a longer packet, and bounds its count for known bytes alone. `vectors` has the same: no crate below both reads.
fn read_full<R: Read>(input: &mut R, buf: &mut [u8]) -> io::Result<usize>
    ensures { ReadsAtMost result buf.new }
{
    let mut done: usize = 0;
    while done < buf.len() {
        let n = input.read(&mut buf[done..])?;
        if n == 0 {
            break;
        }
        done += n;
    }
    Ok(done)
}

// A longest map file is 43,063 bytes, a setup field and 2,048 leaf fields. One byte more is read, so that a longer input is seen to be
// ill-formed however long it is.
fn main(rt: HostRuntime) -> io::Result<()> {
    let mut file = [0u8; 43064];
    let mut out = [0u8; 36864];
    let n = read_full(&mut rt.stdin(), &mut file)?;
    let k = text::write_listing(&file[..n], &mut out);
    rt.write_all(&out[..k])
}
