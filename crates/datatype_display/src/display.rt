// The printed text of a node, as `datatype_display.rs` writes it: a type's word, then by its kind what stands behind it.
// The level falls from a type to those below it. What is known of it stands in each contract: it is a number of the walk and
// not of the node, and another at each call.
ghost use Rattle.std.specs.Prelude.{◌≡◌, ◌≤◌, ◌<◌, false, length, MatchOption, []};
ghost use Rattle.datatype.specs.Kind.{list, fixed_list, struct, union, dictionary, mapping, run_end_encoded};
ghost use Rattle.display_length.specs.Display.{field_text, list_field_text};
ghost use Rattle.display_length.specs.Internal.Nodes.{label_in, levels_below};
ghost use Rattle.datatype_display.specs.Internal.Steps.{Fits, Wrote, HasFirst, HasTwo, is_alone, text_in, shown_in, fields_in, shape_in, nullable_text, union_field_text};

use crate::leaves::is_alone;
use crate::write::Printer;
use datatype::kind;
use datatype::kind::is_word;
use display_length::{PrintedNode, are_default_names, mode_word, sorted_word};
use row_table::nodes::Node;

// A node below one, as it is printed.
#[tactic(auto, using(display_length::proofs::PrintedNodes::same_steps))]
fn below<'a>(parent: &PrintedNode<'a>, node: Node<'a>) -> PrintedNode<'a>
    requires { node.whole.now ≡ parent.now.of.now.whole }
    ensures of { result.of ≡ parent.now.of }
    ensures at { result.at ≡ node.entry.at }
{
    PrintedNode {
        of: parent.of,
        at: node.at,
    }
}

// The first type below one. A List, a FixedSizeList or a Map of a sound tree has it; one without has no text behind its
// word, so that nothing need be known of how many there are.
#[tactic(auto, using(crate::proofs::Children::first_found))]
fn first_child<'a>(parent: &PrintedNode<'a>) -> Option<PrintedNode<'a>>
    ensures { MatchOption result (fields_in parent.now ≡ []) (λ child. HasFirst parent.now child) }
{
    let Some(child) = parent.node().children().next() else {
        return None;
    };
    Some(below(parent, child))
}

// The first two, which a Dictionary and a RunEndEncoded have. With `?` in place of `let .. else` two goals did not close.
#[tactic(auto, using(crate::proofs::Children::two_steps))]
fn first_two<'a>(parent: &PrintedNode<'a>) -> Option<(PrintedNode<'a>, PrintedNode<'a>)>
    ensures { MatchOption result (length (fields_in parent.now) < 2) (λ both. HasTwo parent.now both.0 both.1) }
{
    let mut children = parent.node().children();
    let Some(first) = children.next() else {
        return None;
    };
    let Some(second) = children.next() else {
        return None;
    };
    Some((below(parent, first), below(parent, second)))
}

impl<'a> Printer<'a> {
    // [non-null ]type
    #[tactic(auto, using(crate::proofs::Texts::field_steps))]
    #[cycle(types)]
    fn put_nullable(&mut self, level: usize, printed: &PrintedNode<'_>)
        requires { (levels_below printed.now < level) × Fits self.old (nullable_text (shown_in printed.now)) }
        ensures { Wrote self.old (nullable_text (shown_in printed.now)) self.new }
    {
        self.put_nullability(printed.node().row().role());
        self.put_type(level, printed);
    }

    // "name": [non-null ]type. It and `put_type` are made part of their callers: with calls, the fields of a Struct take
    // a tenth more to write.
    #[inline(always)]
    #[tactic(auto, using(crate::proofs::Texts::field_steps))]
    #[cycle(types)]
    fn put_field(&mut self, level: usize, printed: &PrintedNode<'_>)
        requires { (levels_below printed.now < level) × Fits self.old (field_text (shown_in printed.now)) }
        ensures { Wrote self.old (field_text (shown_in printed.now)) self.new }
    {
        self.put_name(printed.node().name(), printed.node().row().role());
        self.put_type(level, printed);
    }

    // [non-null ]type[, field: 'name']
    #[tactic(auto, using(crate::proofs::Texts::field_steps))]
    #[cycle(types)]
    fn put_list_field(&mut self, level: usize, printed: &PrintedNode<'_>)
        requires { (levels_below printed.now < level) × Fits self.old (list_field_text (shown_in printed.now)) }
        ensures { Wrote self.old (list_field_text (shown_in printed.now)) self.new }
    {
        self.put_nullable(level, printed);
        self.put_list_name(printed.node().name());
    }

    // List(field) and the other three lists of any length
    #[tactic(auto, using(crate::proofs::Texts::list_steps))]
    #[cycle(types)]
    fn put_list(&mut self, level: usize, printed: &PrintedNode<'_>)
        requires { (levels_below printed.now ≤ level) × Fits self.old (shape_in list printed.now) }
        ensures { Wrote self.old (shape_in list printed.now) self.new }
    {
        let Some(field) = first_child(printed) else {
            return;
        };
        self.put_mark(b'(');
        self.put_list_field(level, &field);
        self.put_mark(b')');
    }

    // FixedSizeList(length x field)
    #[tactic(auto, using(crate::proofs::Texts::fixed_list_steps))]
    #[cycle(types)]
    fn put_fixed_size_list(&mut self, level: usize, printed: &PrintedNode<'_>)
        requires { (levels_below printed.now ≤ level) × Fits self.old (shape_in fixed_list printed.now) }
        ensures { Wrote self.old (shape_in fixed_list printed.now) self.new }
    {
        let Some(field) = first_child(printed) else {
            return;
        };
        self.put_mark(b'(');
        self.put_number(printed.node().row().number());
        self.put(b" x ");
        self.put_list_field(level, &field);
        self.put_mark(b')');
    }

    // Struct(field, ..)
    #[tactic(auto, using(crate::proofs::Texts::struct_steps))]
    #[cycle(types)]
    fn put_struct(&mut self, level: usize, printed: &PrintedNode<'_>)
        requires { (levels_below printed.now ≤ level) × Fits self.old (shape_in struct printed.now) }
        ensures { Wrote self.old (shape_in struct printed.now) self.new }
    {
        self.put_mark(b'(');
        for node in printed.node().children() {
            let field = below(printed, node);
            self.put_comma(node.at != printed.at + 1);
            self.put_field(level, &field);
        }
        self.put_mark(b')');
    }

    // , id: (field)
    #[tactic(auto, using(crate::proofs::Texts::field_steps))]
    #[cycle(types)]
    fn put_union_field(&mut self, level: usize, printed: &PrintedNode<'_>)
        requires { (levels_below printed.now < level) × Fits self.old (union_field_text (shown_in printed.now)) }
        ensures { Wrote self.old (union_field_text (shown_in printed.now)) self.new }
    {
        self.put(b", ");
        self.put_number(printed.node().row().union_id());
        self.put(b": (");
        self.put_field(level, printed);
        self.put_mark(b')');
    }

    // Union(mode, id: (field), ..)
    #[tactic(auto, using(crate::proofs::Texts::union_steps))]
    #[cycle(types)]
    fn put_union(&mut self, level: usize, printed: &PrintedNode<'_>)
        requires { (levels_below printed.now ≤ level) × Fits self.old (shape_in union printed.now) }
        ensures { Wrote self.old (shape_in union printed.now) self.new }
    {
        self.put_mark(b'(');
        self.put(mode_word(printed.node().row().number()));
        for node in printed.node().children() {
            let field = below(printed, node);
            self.put_union_field(level, &field);
        }
        self.put_mark(b')');
    }

    // Dictionary(key, value)
    #[tactic(auto, using(crate::proofs::Texts::dictionary_steps))]
    #[cycle(types)]
    fn put_dictionary(&mut self, level: usize, printed: &PrintedNode<'_>)
        requires { (levels_below printed.now ≤ level) × Fits self.old (shape_in dictionary printed.now) }
        ensures { Wrote self.old (shape_in dictionary printed.now) self.new }
    {
        let Some((key, value)) = first_two(printed) else {
            return;
        };
        self.put_mark(b'(');
        self.put_type(level, &key);
        self.put(b", ");
        self.put_type(level, &value);
        self.put_mark(b')');
    }

    // Map(field, sorted)
    #[tactic(auto, using(crate::proofs::Texts::map_steps))]
    #[cycle(types)]
    fn put_map(&mut self, level: usize, printed: &PrintedNode<'_>)
        requires { (levels_below printed.now ≤ level) × Fits self.old (shape_in mapping printed.now) }
        ensures { Wrote self.old (shape_in mapping printed.now) self.new }
    {
        let Some(entries) = first_child(printed) else {
            return;
        };
        self.put_mark(b'(');
        self.put_field(level, &entries);
        self.put(b", ");
        self.put(sorted_word(printed.node().row().number()));
        self.put_mark(b')');
    }

    // RunEndEncoded(run ends, values), with their names unless both are the default ones
    #[tactic(auto, using(crate::proofs::Texts::run_end_steps))]
    #[cycle(types)]
    fn put_run_end_encoded(&mut self, level: usize, printed: &PrintedNode<'_>)
        requires { (levels_below printed.now ≤ level) × Fits self.old (shape_in run_end_encoded printed.now) }
        ensures { Wrote self.old (shape_in run_end_encoded printed.now) self.new }
    {
        let Some((run_ends, values)) = first_two(printed) else {
            return;
        };
        self.put_mark(b'(');
        if are_default_names(run_ends.node().name(), values.node().name()) {
            self.put_nullable(level, &run_ends);
            self.put(b", ");
            self.put_nullable(level, &values);
        } else {
            self.put_field(level, &run_ends);
            self.put(b", ");
            self.put_field(level, &values);
        }
        self.put_mark(b')');
    }

    // Writes the type of a node with all that stands below it: where nothing does, with no call of the walk.
    #[inline(always)]
    #[tactic(auto, using(crate::proofs::Texts::type_steps))]
    #[cycle(types)]
    pub(crate) fn put_type(&mut self, level: usize, printed: &PrintedNode<'_>)
        requires { (levels_below printed.now < level) × Fits self.old (text_in printed.now) }
        ensures { Wrote self.old (text_in printed.now) self.new }
    {
        let kind = printed.node().row().kind();
        if is_word(kind) {
            self.put_kind(kind);
        } else if is_alone(kind) {
            self.put_leaf(kind, printed);
        } else {
            self.put_nested(level, printed);
        }
    }

    // Writes the type of a node with the types below it.
    #[tactic(auto, using(crate::proofs::Texts::nested_steps), unfolding(crate::specs::Internal::Steps::is_alone))]
    #[cycle(types)]
    fn put_nested(&mut self, level: usize, printed: &PrintedNode<'_>)
        requires { (levels_below printed.now < level) × (is_alone (label_in printed.now).kind ≡ false) × Fits self.old (text_in printed.now) }
        ensures { Wrote self.old (text_in printed.now) self.new }
    {
        let kind = printed.node().row().kind();
        self.put_kind(kind);
        let below = level - 1;
        match kind {
            kind::FIXED_SIZE_LIST => self.put_fixed_size_list(below, printed),
            kind::STRUCT => self.put_struct(below, printed),
            kind::UNION => self.put_union(below, printed),
            kind::DICTIONARY => self.put_dictionary(below, printed),
            kind::MAP => self.put_map(below, printed),
            kind::RUN_END_ENCODED => self.put_run_end_encoded(below, printed),
            _ => self.put_list(below, printed),
        }
    }
}
