// What stands behind the word of a type that has no types below it, and the parts of fields.
ghost use Rattle.std.specs.Prelude.{◌≡◌, ◌++◌, true};
ghost use Rattle.tokenizer.specs.Text.{bytes};
ghost use Rattle.writer.specs.Digits.{digits};
ghost use Rattle.display_length.specs.Display.{scale_text, zone_text, list_name_text};
ghost use Rattle.display_length.specs.Internal.Nodes.{label_in};
ghost use Rattle.datatype_display.specs.Internal.Steps.{Fits, Wrote, is_alone, nullability, name_text, comma, text_in};

use crate::write::Printer;
use datatype::rows::NON_NULL;
use datatype::{Field, equal_bytes, kind};
use display_length::{PrintedNode, interval_word, unit_word};

// Whether no types stand below one of a kind.
#[tactic(auto, unfolding(crate::specs::Internal::Steps::is_alone))]
pub(crate) fn is_alone(kind: u32) -> bool
    ensures { result ≡ is_alone kind }
{
    matches!(kind, kind::NULL..kind::LIST | kind::DECIMAL32..=kind::DECIMAL256)
}

impl<'a> Printer<'a> {
    // Writes a zone behind a unit, where there is one.
    #[tactic(auto, using(crate::proofs::Texts::zone_parts))]
    fn put_zone(&mut self, zone: &[u8])
        requires { Fits self.old (zone_text zone.now) }
        ensures { Wrote self.old (zone_text zone.now) self.new }
    {
        if zone.is_empty() {
            return;
        }
        self.put(b", ");
        self.put_quoted(zone);
    }

    // (word), as Time32, Time64, Duration and Interval have it
    #[tactic(auto, using(crate::proofs::Writes::writes))]
    fn put_enclosed(&mut self, word: &[u8])
        requires { Fits self.old (bytes "(" ++ (word.now ++ bytes ")")) }
        ensures { Wrote self.old (bytes "(" ++ (word.now ++ bytes ")")) self.new }
    {
        self.put_mark(b'(');
        self.put(word);
        self.put_mark(b')');
    }

    // (unit[, "zone"]), as Timestamp has it
    #[tactic(auto, using(crate::proofs::Writes::writes))]
    fn put_timestamp(&mut self, unit: &[u8], zone: &[u8])
        requires { Fits self.old (bytes "(" ++ (unit.now ++ (zone_text zone.now ++ bytes ")"))) }
        ensures { Wrote self.old (bytes "(" ++ (unit.now ++ (zone_text zone.now ++ bytes ")"))) self.new }
    {
        self.put_mark(b'(');
        self.put(unit);
        self.put_zone(zone);
        self.put_mark(b')');
    }

    // (length), as FixedSizeBinary has it
    #[tactic(auto, using(crate::proofs::Writes::writes))]
    fn put_fixed_size_binary(&mut self, size: u32)
        requires { Fits self.old (bytes "(" ++ (digits size ++ bytes ")")) }
        ensures { Wrote self.old (bytes "(" ++ (digits size ++ bytes ")")) self.new }
    {
        self.put_mark(b'(');
        self.put_number(size);
        self.put_mark(b')');
    }

    // (precision, scale), as Decimal32 and the other three widths have it
    #[tactic(auto, using(crate::proofs::Writes::writes))]
    fn put_decimal(&mut self, precision: u32, scale: u32)
        requires { Fits self.old (bytes "(" ++ (digits precision ++ (bytes ", " ++ (scale_text scale ++ bytes ")")))) }
        ensures { Wrote self.old (bytes "(" ++ (digits precision ++ (bytes ", " ++ (scale_text scale ++ bytes ")")))) self.new }
    {
        self.put_mark(b'(');
        self.put_number(precision);
        self.put(b", ");
        self.put_scale(scale);
        self.put_mark(b')');
    }

    // Writes a type that has no types below it.
    #[tactic(auto, using(crate::proofs::Texts::leaf_steps), unfolding(crate::specs::Internal::Steps::is_alone))]
    pub(crate) fn put_leaf(&mut self, kind: u32, printed: &PrintedNode<'_>)
        requires { (kind ≡ (label_in printed.now).kind) × (is_alone kind ≡ true) × Fits self.old (text_in printed.now) }
        ensures { Wrote self.old (text_in printed.now) self.new }
    {
        self.put_kind(kind);
        let row = printed.node().row();
        let number = row.number();
        let spelling = printed.of.spelling;
        match kind {
            kind::TIMESTAMP => self.put_timestamp(
                unit_word(spelling, number),
                printed.node().zone(),
            ),
            kind::TIME32 | kind::TIME64 | kind::DURATION => self.put_enclosed(unit_word(
                spelling, number,
            )),
            kind::INTERVAL => self.put_enclosed(interval_word(number)),
            kind::FIXED_SIZE_BINARY => self.put_fixed_size_binary(number),
            kind::DECIMAL32 | kind::DECIMAL64 | kind::DECIMAL128 | kind::DECIMAL256 =>
                self.put_decimal(number, row.scale()),
            _ => {}
        }
    }

    // Writes a field's nullability: nullable is the default.
    #[tactic(auto, using(crate::proofs::Writes::writes), unfolding(crate::specs::Internal::Steps::nullability))]
    pub(crate) fn put_nullability(&mut self, role: u32)
        requires { Fits self.old (nullability role) }
        ensures { Wrote self.old (nullability role) self.new }
    {
        if role == NON_NULL {
            self.put(b"non-null ");
        }
    }

    // "name": [non-null ]
    #[tactic(auto, using(crate::proofs::Writes::writes), unfolding(crate::specs::Internal::Steps::name_text))]
    pub(crate) fn put_name(&mut self, name: &[u8], role: u32)
        requires { Fits self.old (name_text name.now role) }
        ensures { Wrote self.old (name_text name.now role) self.new }
    {
        self.put_quoted(name);
        self.put(b": ");
        self.put_nullability(role);
    }

    // Writes a list's name, but for the default one.
    #[tactic(auto, using(crate::proofs::Writes::writes), unfolding(display_length::specs::Display::list_name_text))]
    pub(crate) fn put_list_name(&mut self, name: &[u8])
        requires { Fits self.old (list_name_text name.now) }
        ensures { Wrote self.old (list_name_text name.now) self.new }
    {
        if equal_bytes(name, &Field::LIST_FIELD_DEFAULT_NAME) {
            return;
        }
        self.put(b", field: '");
        self.put(name);
        self.put_mark(b'\'');
    }

    // Writes a comma where a field follows.
    #[tactic(auto, using(crate::proofs::Writes::writes), unfolding(crate::specs::Internal::Steps::comma))]
    pub(crate) fn put_comma(&mut self, more: bool)
        requires { Fits self.old (comma more) }
        ensures { Wrote self.old (comma more) self.new }
    {
        if more {
            self.put(b", ");
        }
    }
}
