// What a program that reads lines says on standard error.
ghost use Rattle.std.specs.Prelude.{◌≡◌, List, ℕ, ◌≤◌, length, OnOk};
ghost use Rattle.std.specs.Io.KnownBytes.{Appends};
ghost use Rattle.input_lines.specs.Messages.{argument_line, failed_call, Tells};

use std::io;
use std::io::{Cursor, Write};

// Why a program stopped before its input ended. `report` prints it, and no `Display`: the error's number in brackets is
// cut off from what is written.
#[derive(Drop)]
pub enum Failure {
    Reading(io::Error),
    Writing(io::Error),
}

// The bytes that the longest text of an error takes, with its number.
const REASON_BYTES: usize = 320;

// How many bytes of an error's text say why: the error's number stands behind them in brackets.
fn reason_length(text: &[u8]) -> usize
    ensures { result ≤ length text.now }
{
    match text.iter().rposition(|c| *c == b'(') {
        Some(i) if 0 < i => i - 1,
        _ => text.len(),
    }
}

// Writes why a call failed.
fn put_reason<E: Write>(stderr: &mut E, error: io::Error) -> io::Result<()>
    ensures { OnOk result
        ((reason : List ℕ) × Appends (E.contents stderr.old) (E.contents stderr.new) reason) }
{
    let mut text = Cursor::new([0u8; REASON_BYTES]);
    text.write_fmt(error)?;
    let size = (text.position() as usize).min(REASON_BYTES);
    let bytes = text.into_inner();
    stderr.write_all(&bytes[..reason_length(&bytes[..size])])
}

impl Failure {
    // What failed.
    fn call(&self) -> &'static [u8]
        ensures { result.now ≡ failed_call self.now }
    {
        match self {
            Failure::Reading(_) => b": reading standard input: ",
            Failure::Writing(_) => b": writing standard output: ",
        }
    }

    // Writes a line to standard error: what the program is called, what failed, and why.
    pub fn report<E: Write>(self, program: &[u8], stderr: &mut E) -> io::Result<()>
        ensures { OnOk result
            (Tells (E.contents stderr.old) (E.contents stderr.new) program.now self) }
    {
        stderr.write_all(program)?;
        stderr.write_all(self.call())?;
        let (Failure::Reading(error) | Failure::Writing(error)) = self;
        put_reason(stderr, error)?;
        stderr.write_all(b"\n")
    }
}

// Writes the line that an argument gets, to standard error.
pub fn refuse_argument<E: Write>(program: &[u8], stderr: &mut E) -> io::Result<()>
    ensures { OnOk result
        (Appends (E.contents stderr.old) (E.contents stderr.new) (argument_line program.now)) }
{
    stderr.write_all(program)?;
    stderr.write_all(b": takes no argument; the lines come from standard input, as in: ")?;
    stderr.write_all(program)?;
    stderr.write_all(b" < FILE\n")
}
