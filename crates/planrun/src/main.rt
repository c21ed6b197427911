// planrun: reads a plan on standard input, runs it from a fresh start to its end, and prints what
// each domain saw.
#![tactic(auto)]

ghost use Rattle.std.specs.Io.KnownBytes.{Consumes};
ghost use Rattle.std.specs.IoError.{error_kind};
ghost use Rattle.std.specs.Prelude.{◌≡◌, ◌≢◌, ◌≤◌, ℕ, length, take, IfErr, IfOk, OnErr};

use report::limits::{MOST_PRINTED, TEXT_ROOM};
use report::program::plan_lines;
use std::io;
use std::io::{ErrorKind, Read};

// Reads until the buffer is full or the input ends, and answers how many bytes there are. A read
// that a signal interrupts is made again. On an error the buffer begins with what was read before.
// No clause says that a buffer left short met the input's end: the loop's turns can run out too.
// `vectors` and the library `input` have the same loop. Here it is private: every public function but
// that of `input` has an equation for each buffer that it is lent, and `read` tells nothing of what
// stands behind the bytes that it counts.
fn read_full<R: Read>(reader: &mut R, buffer: &mut [u8]) -> io::Result<usize>
    ensures within { IfOk result (λ count. count ≤ length buffer.new) }
    ensures length { length buffer.new ≡ length buffer.old }
    ensures bytes { IfOk result (λ count. Consumes (R.remaining reader.old) (R.remaining reader.new)
        (take count buffer.new)) }
    ensures none_lost { OnErr result ((count : ℕ) × (count ≤ length buffer.new)
        × Consumes (R.remaining reader.old) (R.remaining reader.new) (take count buffer.new)) }
    ensures retried { IfErr result (λ error. error_kind error ≢ ErrorKind.Interrupted) }
{
    let mut count: usize = 0;
    for _ in 0..u64::MAX {
        match reader.read(&mut buffer[count..]) {
            Ok(0) => break,
            Ok(more) => count += more,
            Err(error) => {
                if error.kind() != ErrorKind::Interrupted {
                    return Err(error);
                }
            }
        }
    }
    Ok(count)
}

fn main(rt: HostRuntime) -> io::Result<()> {
    // no heap: text and out are fixed rooms, and how much of each is used stands beside
    let mut text = [0u8; TEXT_ROOM];
    let length = read_full(&mut rt.stdin(), &mut text)?;
    // all that is printed for any text has room here, so that every line of it is written
    let mut out = [0u8; MOST_PRINTED];
    let written = plan_lines(&text[..length], &mut out);
    rt.write_all(&out[..written])
}
