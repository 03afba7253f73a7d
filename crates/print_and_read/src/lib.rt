// Printing a tree and reading it back: demand 3 as a function's contract.

#![tactic(auto)]

ghost use Rattle.std.specs.Prelude.{◌≡◌};
ghost use Rattle.datatype_display.specs.Print.{print_bytes};
ghost use Rattle.round_trip.specs.PrintAndRead.{printed_and_read_means, print_and_read_answer, print_and_read_rows, Asks3, Demand3};

use datatype::Tree;
use datatype_display::print_sound_tree;
use datatype_parse::parse_data_type;
use display_length::Spelling;
use round_trip::{NotReadBack, PrintedAndRead};
use row_table::nodes::SoundTree;
use tokenizer::Refusal;

// Prints a tree in a spelling into one lent buffer and reads just those bytes back into another. For a tree that demand 3
// speaks of and buffers that hold its text and its rows, neither call refuses, and the rows are the same tree.
#[tactic(auto, unfolding(datatype_display::specs::Print::print, datatype_display::specs::Print::print_bytes, round_trip::specs::PrintAndRead::printed_and_read_means, round_trip::specs::PrintAndRead::print_and_read_answer, round_trip::specs::PrintAndRead::print_and_read_rows))]
pub fn print_and_read(
    spelling: Spelling,
    tree: Tree<'_>,
    out: &mut [u8],
    back: &mut [u32],
) -> Result<PrintedAndRead, NotReadBack>
    ensures answer { printed_and_read_means result ≡ print_and_read_answer spelling tree.entry.text.now tree.entry.names.now tree.entry.rows.now out.old back.old }
    ensures bytes { out.new ≡ print_bytes spelling tree.entry.text.now tree.entry.names.now tree.entry.rows.now out.old }
    ensures contents { back.new ≡ print_and_read_rows spelling tree.entry.text.now tree.entry.names.now tree.entry.rows.now out.old back.old }
    ensures demand3 { Asks3 spelling tree.entry.text.now tree.entry.names.now tree.entry.rows.now out.old back.old → Demand3 spelling tree.entry.text.now tree.entry.names.now tree.entry.rows.now (printed_and_read_means result) out.new back.new }
{
    let Some(whole) = SoundTree::of(tree) else {
        return Err(NotReadBack::NotPrinted(Refusal::NotSound));
    };
    print_and_read_sound_tree(spelling, &whole, out, back)
}

/// The same of a tree that is known to be sound, which is not tested again.
#[tactic(auto, unfolding(datatype_display::specs::Print::print_answer, datatype_display::specs::Print::print_bytes, round_trip::specs::PrintAndRead::printed_and_read_means, round_trip::specs::PrintAndRead::print_and_read_answer, round_trip::specs::PrintAndRead::print_and_read_rows))]
pub fn print_and_read_sound_tree(
    spelling: Spelling,
    whole: &SoundTree<'_>,
    out: &mut [u8],
    back: &mut [u32],
) -> Result<PrintedAndRead, NotReadBack>
    ensures answer { printed_and_read_means result ≡ print_and_read_answer spelling whole.now.tree.text.now whole.now.tree.names.now whole.now.tree.rows.now out.old back.old }
    ensures bytes { out.new ≡ print_bytes spelling whole.now.tree.text.now whole.now.tree.names.now whole.now.tree.rows.now out.old }
    ensures contents { back.new ≡ print_and_read_rows spelling whole.now.tree.text.now whole.now.tree.names.now whole.now.tree.rows.now out.old back.old }
    ensures demand3 { Asks3 spelling whole.now.tree.text.now whole.now.tree.names.now whole.now.tree.rows.now out.old back.old → Demand3 spelling whole.now.tree.text.now whole.now.tree.names.now whole.now.tree.rows.now (printed_and_read_means result) out.new back.new }
{
    let bytes = print_sound_tree(spelling, whole, out).map_err(NotReadBack::NotPrinted)?;
    let rows = parse_data_type(&out[..bytes], back).map_err(NotReadBack::NotRead)?;
    Ok(PrintedAndRead { bytes, rows })
}
