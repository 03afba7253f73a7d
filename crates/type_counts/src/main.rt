// The monthly count: standard input has a type text on each line, and standard output gets exact counts of them once the
// input has ended, or `no 24` once it has a line more than are counted. A read or a write that fails ends the program with a
// message and the exit status 2, and so does an argument.

#![tactic(auto)]

ghost use Rattle.std.specs.Prelude.{◌≡◌, []};
ghost use Rattle.std.specs.Process.{exit_status};
ghost use Rattle.input_lines.specs.Streams.{streams};
ghost use Rattle.tally.specs.Tally.{tally};
ghost use Rattle.type_counts.specs.Counting.{Waiting, TurnMeans};
ghost use Rattle.type_counts.specs.Ending.{CountsAll, Prints, Ran, Starts, status_of};

use counter::Counter;
use input_lines::{Failure, Place, move_to_front, read_behind, refuse_argument, write_out};
use std::env::{Env, FillError};
use std::io;
use std::io::{Read, Write};
use std::process::ExitCode;
use tally::{REPORT_BYTES, Tally};

mod counter;

// The bytes of the input that are held at a time.
const BUFFER_BYTES: usize = 65_536;

// What the program is called.
const PROGRAM: &[u8] = b"type_counts";

// What is printed in place of a report.
const TOO_MANY_LINES: &[u8] = b"no 24\n";

// What is left to count of the bytes read: so many bytes at the front of the buffer, part of one line, and whether what comes
// next is the rest of a line that is counted already.
#[derive(Drop)]
struct Left {
    size: usize,
    skip: bool,
}

// What a turn comes to: bytes were read, and so much is left; the input has ended; or it has a line more than are counted.
#[derive(Drop)]
enum Turn {
    MoreRead(Left),
    Ended,
    TooManyLines,
}

// What the program printed.
#[derive(Clone, Copy)]
enum Printed {
    Report,
    TooMany,
}

// What the program did: it wrote the line that an argument gets, if that could be written; or it counted, with what `run` gave.
#[derive(Drop)]
enum Ending {
    Argument(io::Result<()>),
    Lines(Result<Option<Printed>, Failure>),
}

// One turn: reads behind what is left, and counts what can be counted; or what is left, where the input has ended.
#[tactic(auto, using(crate::proofs::Turns::turn_steps))]
fn take_turn<I: Read>(
    stdin: &mut I,
    input: &mut [u8; BUFFER_BYTES],
    left: Left,
    counter: &mut Counter,
) -> Result<Turn, Failure>
    requires { Waiting counter.old.tally input.old left }
    ensures { TurnMeans counter.old.tally input.old left (I.remaining stdin.old)
        result counter.new.tally input.new (I.remaining stdin.new) }
{
    let n = read_behind(stdin, input, left.size)?;
    if n == 0 {
        return Ok(match counter.count_last(&input[..left.size], left.skip) {
            Ok(()) => Turn::Ended,
            Err(_) => Turn::TooManyLines,
        });
    }
    let filled = left.size + n;
    let start = Place {
        from: 0,
        skip: left.skip,
    };
    let Ok(place) = counter.count_lines(&input[..filled], start) else {
        return Ok(Turn::TooManyLines);
    };
    let size = move_to_front(input, place.from, filled);
    Ok(Turn::MoreRead(Left {
        size,
        skip: place.skip,
    }))
}

// Turns until the input has ended or has a line more than are counted; none where so many turns were all, which cannot run
// out, since each reads a byte.
#[tactic(auto, using(crate::proofs::Turns::run_steps))]
fn count_input<I: Read>(
    stdin: &mut I,
    input: &mut [u8; BUFFER_BYTES],
    counts: &mut Counter,
) -> Result<Option<Printed>, Failure>
    requires { counts.old.tally ≡ tally [] }
    ensures { CountsAll (I.remaining stdin.old) result (I.remaining stdin.new) counts.new.tally }
{
    let mut left = Left {
        size: 0,
        skip: false,
    };
    for _ in 0..u64::MAX {
        match take_turn(stdin, input, left, counts)? {
            Turn::MoreRead(next) => left = next,
            Turn::Ended => return Ok(Some(Printed::Report)),
            Turn::TooManyLines => return Ok(Some(Printed::TooMany)),
        }
    }
    Ok(None)
}

// Prints the report, or what stands in its place.
fn print<O: Write>(stdout: &mut O, counts: &Tally, printed: Printed) -> Result<(), Failure>
    ensures { Prints (O.contents stdout.old) counts.now printed result (O.contents stdout.new) }
{
    let mut report = [0; REPORT_BYTES];
    let size = counts.put_report(&mut report);
    match printed {
        Printed::Report => write_out(stdout, &report[..size]),
        Printed::TooMany => write_out(stdout, TOO_MANY_LINES),
    }
}

// Counts the input, and prints what comes of it.
fn run<I: Read, O: Write>(
    stdin: &mut I,
    stdout: &mut O,
    input: &mut [u8; BUFFER_BYTES],
) -> Result<Option<Printed>, Failure>
    ensures { Ran (streams (I.remaining stdin.old) (O.contents stdout.old)) result
        (streams (I.remaining stdin.new) (O.contents stdout.new)) }
{
    let mut counter = Counter::new();
    let printed = count_input(stdin, input, &mut counter)?;
    if let Some(printed) = printed {
        print(stdout, &counter.tally, printed)?;
    }
    Ok(printed)
}

// Counts the lines if `arg` says that nothing stands behind the program's name. Else it writes the line that an argument gets
// to standard error, and reads nothing.
fn start<I: Read, O: Write, E: Write>(
    argument: Result<usize, FillError>,
    stdin: &mut I,
    stdout: &mut O,
    stderr: &mut E,
    input: &mut [u8; BUFFER_BYTES],
) -> Ending
    ensures { Starts argument result stdin.old stdin.new stdout.old stdout.new
        (streams (I.remaining stdin.old) (O.contents stdout.old))
        (streams (I.remaining stdin.new) (O.contents stdout.new)) (E.contents stderr.old) (E.contents stderr.new) }
{
    match argument {
        Err(FillError::NotPresent) => Ending::Lines(run(stdin, stdout, input)),
        _ => Ending::Argument(refuse_argument(PROGRAM, stderr)),
    }
}

// The status that the program ends with: 0 behind a report, 1 behind `no 24`, and else 2.
fn status_of(ending: &Ending) -> ExitCode
    ensures { exit_status result ≡ status_of ending.now }
{
    match ending {
        Ending::Lines(Ok(Some(Printed::Report))) => ExitCode::SUCCESS,
        Ending::Lines(Ok(Some(Printed::TooMany))) => ExitCode::from(1),
        _ => ExitCode::from(2),
    }
}

fn main(rt: HostRuntime) -> ExitCode {
    let mut input = [0; BUFFER_BYTES];
    // no byte of an argument is asked for, only whether there is one
    let argument = rt.arg(1, &mut []);
    let ending = start(
        argument,
        &mut rt.stdin(),
        &mut rt.stdout(),
        &mut rt.stderr(),
        &mut input,
    );
    let status = status_of(&ending);
    if let Ending::Lines(Err(failure)) = ending {
        let _ = failure.report(PROGRAM, &mut rt.stderr());
    }
    status
}
