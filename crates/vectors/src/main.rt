// vectors: runs outside examples, written as lines of commands on standard input, and prints what
// each call answers. The file stdin begins with the list of commands. No contract can speak of what
// is printed, so the functions here carry what their safety needs, and no more.
#![tactic(auto)]

ghost use Rattle.std.specs.Prelude.{◌≤◌, length, IfOk};

mod advancing;
mod calls;
mod commands;
mod example;
mod fields;
mod printing;
mod tables;
mod text;

use commands::obey_all;
use std::io;
use std::io::{ErrorKind, Read};

// Reads until the buffer is full or the input ends, and answers how many bytes there are. A read
// that a signal interrupts is made again. `planrun` has the same loop, and says why.
fn read_full<R: Read>(reader: &mut R, buffer: &mut [u8]) -> io::Result<usize>
    ensures { IfOk result (λ count. count ≤ length buffer.new) }
{
    let mut count: usize = 0;
    for _ in 0..u64::MAX {
        match reader.read(&mut buffer[count..]) {
            Ok(0) => break,
            Ok(more) => count += more,
            Err(error) => {
                if error.kind() != ErrorKind::Interrupted {
                    return Err(error);
                }
            }
        }
    }
    Ok(count)
}

fn main(rt: HostRuntime) -> io::Result<()> {
    // no heap: a fixed room, and how many bytes of it are read
    let mut input = [0u8; 131_072];
    let length = read_full(&mut rt.stdin(), &mut input)?;
    obey_all(&rt, &input[..length])
}
