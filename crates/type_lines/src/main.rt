// The line program: standard input has a type text on each line, standard output gets an answer for each. Answers are
// written before each read, so that whoever waits for one before it writes the next line gets it. A read or a write
// that fails ends the program with a message and the exit status 2, and so does an argument.

#![tactic(auto)]

ghost use Rattle.std.specs.Prelude.{◌≡◌, ◌<◌, ◌≤◌, length, take};
ghost use Rattle.std.specs.Process.{exit_status};
ghost use Rattle.input_lines.specs.Streams.{WritesOut, streams};
ghost use Rattle.type_lines.specs.Run.{Unfinished};
ghost use Rattle.type_lines.specs.Start.{Starts, status_of};
ghost use Rattle.type_lines.specs.Turns.{ReadOn, Running, GoesOn, LastLine, Ran};

use answer_line::ANSWER_BYTES;
use input_lines::{Failure, move_to_front, read_behind, refuse_argument, write_out};
use lines::Output;
use std::env::{Env, FillError};
use std::io;
use std::io::{Read, Write};
use std::ops::ControlFlow;
use std::process::ExitCode;

mod lines;

// The bytes of the input that are held at a time, and of the output. No heap, so no `Vec`, and an `ArrayVec` lends no
// place past its bytes to be read or answered into: each buffer is an array, and how many of its bytes count stands in
// `Progress` and `Turn`.
const BUFFER_BYTES: usize = 65_536;

// What the program is called.
const PROGRAM: &[u8] = b"type_lines";

// Where the lines have got to: the place in the bytes read, how many bytes of answers are in the output, and whether
// what comes next is the rest of a line that is answered already: a yes or no on which no other field hangs.
#[derive(Drop)]
struct Progress {
    from: usize,
    wrote: usize,
    skip: bool,
}

// What a turn of the program leaves: how many bytes of the input are in the buffer, the place in them, and, as in
// `Progress`, whether what comes next is the rest of a line that is answered already; how many bytes of answers it
// wrote, which stand in the output; and how many it read, the last of those in the buffer. It holds no `Progress`, which is
// of a turn under way: what is written by then is flushed before the next begins.
#[derive(Drop)]
struct Turn {
    filled: usize,
    from: usize,
    skip: bool,
    written: usize,
    read: usize,
}

// What the program did: it wrote the line that an argument gets, if that could be written; or it ran, with what `run` gave.
#[derive(Drop)]
enum Ending {
    Argument(io::Result<()>),
    Lines(Result<Option<usize>, Failure>),
}

// Writes so many bytes at the front of the output to standard output.
fn flush<O: Write>(stdout: &mut O, out: &[u8], n: usize) -> Result<(), Failure>
    requires { n ≤ length out.now }
    ensures { WritesOut (O.contents stdout.old) (O.contents stdout.new) (take n out.now) result }
{
    write_out(stdout, &out[..n])
}

// Reads more behind so many bytes of the input, an unfinished line.
#[tactic(auto, using(crate::proofs::Turns::read_steps))]
fn read_on<I: Read>(
    stdin: &mut I,
    input: &mut [u8],
    left: usize,
    skip: bool,
    wrote: usize,
) -> Result<ControlFlow<Turn, Turn>, Failure>
    requires { left < length input.old }
    ensures { ReadOn result input.old left skip wrote input.new
        (I.remaining stdin.old) (I.remaining stdin.new) }
{
    let n = read_behind(stdin, input, left)?;
    let next = Turn {
        filled: left + n,
        from: 0,
        skip,
        written: wrote,
        read: n,
    };
    if n == 0 {
        return Ok(ControlFlow::Break(next));
    }
    Ok(ControlFlow::Continue(next))
}

// One turn: answers what can be answered and writes the answers; then reads more, unless the output was short of room.
#[tactic(auto, using(crate::proofs::Turns::turn_steps))]
fn take_turn<I: Read, O: Write>(
    stdin: &mut I,
    stdout: &mut O,
    input: &mut [u8; BUFFER_BYTES],
    t: Turn,
    output: &mut Output,
) -> Result<ControlFlow<Turn, Turn>, Failure>
    requires { Running input.old t }
    ensures { GoesOn t
        input.old output.old.bytes (streams (I.remaining stdin.old) (O.contents stdout.old)) result
        input.new output.new.bytes (streams (I.remaining stdin.new) (O.contents stdout.new)) }
{
    let filled = t.filled;
    let p = Progress {
        from: t.from,
        wrote: 0,
        skip: t.skip,
    };
    let q = output.answer_lines(&input[..filled], p);
    flush(stdout, &output.bytes, q.wrote)?;
    if q.wrote <= output.bytes.len() - ANSWER_BYTES {
        let left = move_to_front(input, q.from, filled);
        return read_on(stdin, input, left, q.skip, q.wrote);
    }
    Ok(ControlFlow::Continue(Turn {
        filled,
        from: q.from,
        skip: q.skip,
        written: q.wrote,
        read: 0,
    }))
}

// Answers what is left at the end of the input, and writes the answer: how many bytes.
#[tactic(auto, using(crate::proofs::Turns::last_steps))]
fn finish<O: Write>(
    stdout: &mut O,
    line: &[u8],
    skip: bool,
    output: &mut Output,
) -> Result<usize, Failure>
    requires { Unfinished line.now }
    ensures { LastLine line.now skip (O.contents stdout.old) result
        output.new.bytes (O.contents stdout.new) }
{
    let n = output.answer_last(line, skip);
    flush(stdout, &output.bytes, n)?;
    Ok(n)
}

// Turns until the input ends, and how many bytes were written last; none where so many turns were all, which cannot run
// out, since each reads or writes a byte.
#[tactic(auto, using(crate::proofs::Turns::run_steps))]
fn run<I: Read, O: Write>(
    stdin: &mut I,
    stdout: &mut O,
    input: &mut [u8; BUFFER_BYTES],
    output: &mut Output,
) -> Result<Option<usize>, Failure>
    ensures { Ran result output.new.bytes
        (streams (I.remaining stdin.old) (O.contents stdout.old))
        (streams (I.remaining stdin.new) (O.contents stdout.new)) }
{
    let mut t = Turn {
        filled: 0,
        from: 0,
        skip: false,
        written: 0,
        read: 0,
    };
    for _ in 0..u64::MAX {
        match take_turn(stdin, stdout, input, t, output)? {
            ControlFlow::Continue(next) => t = next,
            ControlFlow::Break(last) => {
                let left = last.filled;
                return Ok(Some(finish(stdout, &input[..left], last.skip, output)?));
            }
        }
    }
    Ok(None)
}

// Answers the lines if `arg` says that nothing stands behind the program's name. Else it writes the line that an argument
// gets to standard error, and reads nothing.
fn start<I: Read, O: Write, E: Write>(
    argument: Result<usize, FillError>,
    stdin: &mut I,
    stdout: &mut O,
    stderr: &mut E,
    input: &mut [u8; BUFFER_BYTES],
    output: &mut Output,
) -> Ending
    ensures { Starts argument result output.new.bytes stdin.old stdin.new stdout.old stdout.new
        (streams (I.remaining stdin.old) (O.contents stdout.old))
        (streams (I.remaining stdin.new) (O.contents stdout.new))
        (E.contents stderr.old) (E.contents stderr.new) }
{
    match argument {
        Err(FillError::NotPresent) => Ending::Lines(run(stdin, stdout, input, output)),
        _ => Ending::Argument(refuse_argument(PROGRAM, stderr)),
    }
}

// The status that the program ends with: 0 where the input was read to its end and every answer was written, and else 2. A
// refused line is an answer too.
fn status_of(ending: &Ending) -> ExitCode
    ensures { exit_status result ≡ status_of ending.now }
{
    match ending {
        Ending::Lines(Ok(Some(_))) => ExitCode::SUCCESS,
        _ => ExitCode::from(2),
    }
}

fn main(rt: HostRuntime) -> ExitCode {
    let mut input = [0; BUFFER_BYTES];
    let mut output = Output::new();
    // no byte of an argument is asked for, only whether there is one
    let argument = rt.arg(1, &mut []);
    let ending = start(
        argument,
        &mut rt.stdin(),
        &mut rt.stdout(),
        &mut rt.stderr(),
        &mut input,
        &mut output,
    );
    let status = status_of(&ending);
    if let Ending::Lines(Err(failure)) = ending {
        let _ = failure.report(PROGRAM, &mut rt.stderr());
    }
    status
}
