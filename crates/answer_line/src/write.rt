// Writing an answer's own bytes: by a `Writer`, since `write!` promises the bytes written of a `String` alone, which needs a
// heap.
ghost use Rattle.std.specs.Prelude.{◌≡◌, ◌≤◌, None};
ghost use Rattle.tokenizer.specs.Answer.{number_of};
ghost use Rattle.writer.specs.Written.{written};
ghost use Rattle.answer_line.specs.Line.{no_line};
ghost use Rattle.parser.specs.Answer.{refusal_in};
ghost use Rattle.answer_line.specs.Internal.Steps.{Answers, Framed, HeadLength, ok_head};
ghost use Rattle.datatype.specs.Limits.{max_text, max_rows, max_levels};

use crate::ANSWER_BYTES;
use parser::ReadError;
use tokenizer::{Numbered, Refusal};
use writer::Writer;

// The line of a refusal: `no`, its number and, of the reader's, its place.
#[tactic(auto, using(crate::proofs::Writing::line_parts))]
fn put_no_line(writer: &mut Writer<'_>, refusal: Refusal, place: Option<u32>)
    ensures { writer.new ≡ written writer.old (no_line (record { number = number_of refusal; place = place })) }
{
    writer.put(b"no ");
    writer.put_number(refusal.number());
    if let Some(place) = place {
        writer.put_byte(b' ');
        writer.put_number(place);
    }
    writer.put_byte(b'\n');
}

// A refusal of the printer: its number.
#[tactic(auto, using(writer::proofs::Written::written_name))]
pub(crate) fn put_no(out: &mut [u8; ANSWER_BYTES], refusal: Refusal) -> usize
    ensures { Answers (no_line (record { number = number_of refusal; place = None })) out.old result out.new }
{
    let mut writer = Writer { at: 0, out };
    put_no_line(&mut writer, refusal, None);
    writer.at
}

// A refusal of the reader: its number and its place.
#[tactic(auto, using(writer::proofs::Written::written_name))]
pub(crate) fn put_no_at(out: &mut [u8; ANSWER_BYTES], error: ReadError) -> usize
    requires { error.place ≤ max_text }
    ensures { Answers (no_line (refusal_in error)) out.old result out.new }
{
    let mut writer = Writer { at: 0, out };
    put_no_line(&mut writer, error.refusal, Some(error.place as u32));
    writer.at
}

// What stands before a printed text: `ok`, its rows and its levels.
#[derive(Clone, Copy)]
pub(crate) struct Head {
    pub rows: usize,
    pub levels: usize,
    ghost few: { rows ≤ max_rows },
    ghost low: { levels ≤ max_levels },
}

impl Head {
    // `ok`, rows, levels, each with a space behind it.
    #[tactic(auto, using(crate::proofs::Writing::line_parts), unfolding(crate::specs::Internal::Steps::ok_head))]
    fn put(&self, writer: &mut Writer<'_>)
        ensures { writer.new ≡ written writer.old (ok_head self.now.rows self.now.levels) }
    {
        writer.put(b"ok ");
        writer.put_number(self.rows as u32);
        writer.put_byte(b' ');
        writer.put_number(self.levels as u32);
        writer.put_byte(b' ');
    }

    // How many bytes it takes.
    pub(crate) fn length(&self) -> usize
        ensures { HeadLength self.now.rows self.now.levels result }
    {
        let mut writer = Writer {
            at: 0,
            out: &mut [],
        };
        self.put(&mut writer);
        writer.at
    }

    #[tactic(auto, using(writer::proofs::Written::written_name))]
    // Writes it before a printed text of so many bytes that stands in its place, and a newline behind that.
    pub(crate) fn frame(&self, out: &mut [u8; ANSWER_BYTES], size: usize) -> usize
        requires { size ≤ max_text }
        ensures { Framed (ok_head self.now.rows self.now.levels) size out.old result out.new }
    {
        let mut writer = Writer { at: 0, out };
        self.put(&mut writer);
        writer.at += size;
        writer.put_byte(b'\n');
        writer.at
    }
}
