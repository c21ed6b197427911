// Reading input into an array. `planrun` and `vectors` have the same loop each for itself.
#![tactic(auto)]

ghost use Rattle.std.specs.Io.KnownBytes.{Consumes};
ghost use Rattle.std.specs.IoError.{error_kind};
ghost use Rattle.std.specs.Prelude.{◌≡◌, ◌≢◌, ◌≤◌, ℕ, length, take, IfErr, IfOk, OnErr};

#[cfg(test)]
mod tests;

use std::io;
use std::io::{ErrorKind, Read};

// Reads until the buffer is full or the input ends, and answers how many bytes there are. A read
// that a signal interrupts is made again. On an error the buffer begins with what was read before.
// No clause says that a buffer left short met the input's end: the loop's turns can run out too.
pub fn read_full<R: Read>(reader: &mut R, buffer: &mut [u8]) -> io::Result<usize>
    ensures within { IfOk result (λ count. count ≤ length buffer.new) }
    ensures length { length buffer.new ≡ length buffer.old }
    ensures bytes { IfOk result (λ count. Consumes (R.remaining reader.old) (R.remaining reader.new)
        (take count buffer.new)) }
    ensures none_lost { OnErr result ((count : ℕ) × (count ≤ length buffer.new)
        × Consumes (R.remaining reader.old) (R.remaining reader.new) (take count buffer.new)) }
    ensures retried { IfErr result (λ error. error_kind error ≢ ErrorKind.Interrupted) }
{
    let mut count: usize = 0;
    for _ in 0..u64::MAX {
        match reader.read(&mut buffer[count..]) {
            Ok(0) => break,
            Ok(more) => count += more,
            Err(error) => {
                if error.kind() != ErrorKind::Interrupted {
                    return Err(error);
                }
            }
        }
    }
    Ok(count)
}
