// Reading and writing in pieces: what is left of the input goes to the front of its buffer, more is read behind it, and what
// is to be printed is written whole. Each function says what it does to its stream, where a contract knows that stream's bytes.
ghost use Rattle.std.specs.Prelude.{◌≡◌, length, take, drop};
ghost use Rattle.input_lines.specs.Streams.{moved, ReadsBehind, WritesOut};
ghost use Rattle.input_lines.specs.Internal.Writing.{WritesSome};

use crate::failure::Failure;
use std::io;
use std::io::{ErrorKind, Read, Write};

// Moves a part of a buffer to its front, as much as there is of it, and gives how many bytes that were.
pub fn move_to_front(input: &mut [u8], from: usize, to: usize) -> usize
    ensures size { result ≡ length (drop from (take to input.old)) }
    ensures bytes { input.new ≡ moved input.old from to }
{
    let end = to.min(input.len());
    let start = from.min(end);
    input.copy_within(start..end, 0);
    end - start
}

// Reads more behind so many bytes of a buffer, and gives how many bytes that were. Behind the buffer's end there is no
// room.
#[tactic(auto, using(crate::proofs::Moving::stays))]
pub fn read_behind<I: Read>(stdin: &mut I, input: &mut [u8], left: usize) -> Result<usize, Failure>
    ensures { ReadsBehind (I.remaining stdin.old) (I.remaining stdin.new)
        input.old left result input.new }
{
    let start = left.min(input.len());
    let n = stdin.read(&mut input[start..]).map_err(Failure::Reading)?;
    Ok(n)
}

// Writes some of the bytes, one at least, and tries again where a signal interrupted it.
#[tactic(auto, using(crate::proofs::Moving::writing_steps))]
fn write_some<O: Write>(stdout: &mut O, bytes: &[u8]) -> Result<usize, Failure>
    ensures { WritesSome (O.contents stdout.old) (O.contents stdout.new) bytes.now result }
{
    for _ in 0..u64::MAX {
        match stdout.write(bytes) {
            Ok(0) => return Err(Failure::Writing(nothing_written())),
            Ok(n) => return Ok(n),
            Err(error) if error.kind() == ErrorKind::Interrupted => {}
            Err(error) => return Err(Failure::Writing(error)),
        }
    }
    Err(Failure::Writing(nothing_written()))
}

// The error of `std`'s `write_all` where no byte is taken.
fn nothing_written() -> io::Error {
    io::Error::new(ErrorKind::WriteZero, "failed to write whole buffer")
}

// Writes the bytes, all of them. `write_all` of `std` does not say what was written by the time that it failed.
#[tactic(auto, using(crate::proofs::Moving::writing_steps))]
pub fn write_out<O: Write>(stdout: &mut O, bytes: &[u8]) -> Result<(), Failure>
    ensures { WritesOut (O.contents stdout.old) (O.contents stdout.new) bytes.now result }
{
    let mut at = 0;
    while at < bytes.len() {
        at += write_some(stdout, &bytes[at..])?;
    }
    Ok(())
}
