// Reads one sheet from standard input and writes one line: its first model, that it has none, or why it is refused.
#![tactic(auto)]

mod answer;

ghost use Rattle.std.specs.Prelude.{IfOk};
ghost use Rattle.solve.specs.Input.{InBuffer};

use answer::answer;
use sheet::BYTES_MOST;
use std::io;
use std::io::{Read, Write};

// One byte more than a sheet may have, so that a longer one is passed on as longer.
const MOST: usize = BYTES_MOST + 1;

// Standard input to its end, or until the buffer is full: how many bytes were read.
fn read_all(reader: &mut impl Read, buffer: &mut [u8]) -> io::Result<usize>
    ensures { IfOk result (InBuffer buffer.new) }
{
    let mut len = 0;
    // kept by hand: a read gives as many bytes as it will, and there is no heap for read_to_end
    while len < buffer.len() {
        let more = reader.read(&mut buffer[len..])?;
        if more == 0 {
            break;
        }
        len += more;
    }
    Ok(len)
}

fn main(rt: HostRuntime) -> io::Result<()> {
    let mut buffer = [0u8; MOST];
    let len = read_all(&mut rt.stdin(), &mut buffer)?;
    let line = answer(&buffer[..len]);
    // in one write: `print!` hands a line of more than 1,024 bytes on in pieces, between which others may write
    io::writer(&rt).write_all(line.as_bytes())
}
