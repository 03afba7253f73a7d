// Replays stored samples: each case is given to the functions of this repository, and what they answer and leave behind
// is compared with what is stored.

#![tactic(auto)]

ghost use Rattle.std.specs.Prelude.{◌≡◌, ◌≤◌, length, take};

use halves::Halves;
use images::Images;
use prints::{AsMicro, AsUs, Prints};
use samples::{Sample, replay};
use std::fs::File;
use std::io::Cursor;
use std::{fs, io};
use tables::Tables;
use texts::{RowsToLend, Stored, Texts};

mod counts;
mod halves;
mod images;
mod prints;
mod samples;
mod stored;
mod tables;
mod texts;

// The most words, half words and bytes that a case is lent. No heap: buffers of so many are there for all cases.
const MOST_WORDS: usize = 13000;

const MOST_HALVES: usize = 13500;

const MOST_BYTES: usize = 20000;

// The most bytes of a sample that are read.
const SAMPLE_BYTES: usize = 1000000;

// What each word and each byte that is lent holds before, and where nothing is written.
const UNTOUCHED: u32 = 7;

// A number, and the place behind it.
#[derive(Clone, Copy)]
struct Number {
    value: u32,
    next: usize,
}

// How many cases were replayed, how many of them gave what is stored, the number of the first that did not, and the
// place behind the last. A function takes it beside the sample and lent words and answers the next: no struct of the three,
// since it alone changes hands.
#[derive(Clone, Copy)]
struct Agreement {
    all: u32,
    alike: u32,
    first: Option<u32>,
    next: usize,
}

// A stored case of the reader, but for the rows' words: the words lent, where the text stands and how long it is, the
// status, the value, the place of a refusal, and the place of the words.
#[derive(Clone, Copy)]
struct ReadCase {
    lent: u32,
    at: usize,
    size: u32,
    status: u32,
    value: u32,
    place: u32,
    next: usize,
}

// A stored case of the printer, but for the rows' words: the bytes lent, the text, the name list, the status, the printed
// bytes, how many words, and the place of the words. Of bytes, the value is their number and the next place is theirs.
#[derive(Clone, Copy)]
struct PrintCase {
    lent: u32,
    text: Number,
    names: Number,
    status: u32,
    printed: Number,
    count: u32,
    next: usize,
}

// A stored case of the archive, but for the rows' words: what is said of the rows, where the image stands as a text does, the
// bytes lent, and the packed text.
#[derive(Clone, Copy)]
struct ImageCase {
    read: ReadCase,
    bytes: u32,
    text: Number,
}

// A stored case of rows in halves, but for the half words and the rows' words: the text, the name list, the words lent, the status,
// the row count, how many half words, and the place of the half words.
#[derive(Clone, Copy)]
struct HalfCase {
    text: Number,
    names: Number,
    lent: u32,
    status: u32,
    value: u32,
    count: u32,
    next: usize,
}

// A stored table, but for its words: the text, the name list, how many words, and the place of the words.
#[derive(Clone, Copy)]
struct Table {
    text: Number,
    names: Number,
    count: u32,
    next: usize,
}

// A stored answer: the status, and the value. Statuses, here and above, and a yes or no as 1 and 0 are numbers, as
// the sample has them.
#[derive(Clone, Copy)]
struct Answer {
    status: u32,
    value: u32,
}

// A stored case of a table: the word that is changed and its value; whether the table is then sound (1 or 0); the depth
// and the verdict; whether it equals the other (1 or 0); the name and the zone of the row that has the word.
#[derive(Clone, Copy)]
struct TableCase {
    place: u32,
    value: u32,
    sound: u32,
    depth: Answer,
    verdict: Answer,
    equal: u32,
    name: Number,
    zone: Number,
    next: usize,
}

// Reads until the buffer is full, the file ends or a read fails: how many bytes stand at the start of the buffer. No
// heap: std's `read_to_end` fills a `Vec`.
fn read_full(mut file: File, sample: &mut [u8]) -> usize
    ensures { (result ≤ length sample.new) × (result ≡ length (take result sample.new)) }
{
    let mut place = Cursor::new(&mut *sample);
    let _ = io::copy(&mut file, &mut place);
    let read = place.position();
    sample.len().min(read as usize)
}

// Reads a file into a buffer: how many bytes of it are read.
fn load(rt: &HostRuntime, path: &str, sample: &mut [u8]) -> usize
    ensures { (result ≤ length sample.new) × (result ≡ length (take result sample.new)) }
{
    match fs::open(rt, path) {
        Ok(file) => read_full(file, sample),
        Err(error) => {
            let _ = eprintln!(rt; "{path}: {error}");
            0
        }
    }
}

// Replays a sample of one kind, and prints the counts.
fn replay_and_print(
    rt: &HostRuntime,
    what: &str,
    kind: &mut impl Sample,
    sample: &[u8],
) -> io::Result<()> {
    let t = replay(kind, sample);
    counts::print(rt, what, t, sample.len())
}

// Room for a sample: a function of its own, since the check of `main` would go through a million zeros.
fn room() -> [u8; SAMPLE_BYTES]
    ensures { 1000000 ≡ length result }
{
    [0; SAMPLE_BYTES]
}

fn main(rt: HostRuntime) -> io::Result<()> {
    let mut sample = room();
    let n = load(&rt, "texts", &mut sample);
    let texts = &sample[..n];
    replay_and_print(&rt, " texts, ", &mut Texts::new(Stored), texts)?;
    let what = " texts again, accepted ones with rows to lend, ";
    replay_and_print(&rt, what, &mut Texts::new(RowsToLend), texts)?;
    let m = load(&rt, "tables", &mut sample);
    replay_and_print(&rt, " tables, ", &mut Tables::new(), &sample[..m])?;
    let k = load(&rt, "prints", &mut sample);
    replay_and_print(&rt, " prints, ", &mut Prints::new(AsMicro), &sample[..k])?;
    let j = load(&rt, "prints_us", &mut sample);
    let plain = " prints with plain us, ";
    replay_and_print(&rt, plain, &mut Prints::new(AsUs), &sample[..j])?;
    let i = load(&rt, "images", &mut sample);
    replay_and_print(&rt, " images, ", &mut Images::new(), &sample[..i])?;
    let h = load(&rt, "halves", &mut sample);
    replay_and_print(&rt, " rows in halves, ", &mut Halves::new(), &sample[..h])
}
