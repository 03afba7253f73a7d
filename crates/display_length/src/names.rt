// Which rows print their children's names in double quotes.
ghost use Rattle.std.specs.Prelude.{◌≡◌, ◌&&◌};
ghost use Rattle.tokenizer.specs.Text.{bytes, same};
ghost use Rattle.datatype.specs.Kind.{run_end_encoded, shape_of};
ghost use Rattle.datatype.specs.Tree.{roots};
ghost use Rattle.display_length.specs.PrintedLength.{quotes_names};
ghost use Rattle.row_table.specs.Nodes.{labels_in};

use datatype::kind::{MAP, RUN_END_ENCODED, STRUCT, UNION};
use datatype::{Field, equal_bytes};
use row_table::nodes::Nodes;

// Whether two names, of any bytes, are the default ones of run ends and values.
pub fn are_default_names(run_ends: &[u8], values: &[u8]) -> bool
    ensures { result ≡ (same run_ends.now (bytes "run_ends") && same values.now (bytes "values")) }
{
    equal_bytes(run_ends, &Field::REE_RUN_ENDS_FIELD_DEFAULT_NAME)
        && equal_bytes(values, &Field::REE_VALUES_FIELD_DEFAULT_NAME)
}

// Whether nodes print their names below a RunEndEncoded.
#[tactic(auto, using(crate::proofs::Rules::pair_steps))]
fn quotes_pair(mut children: Nodes<'_>) -> bool
    ensures { result ≡ quotes_names run_end_encoded (roots (labels_in children.entry)) }
{
    let Some(run_ends) = children.next() else {
        return false;
    };
    let Some(values) = children.next() else {
        return false;
    };
    !are_default_names(run_ends.name(), values.name())
}

// Whether nodes print their names in double quotes below a row of a kind.
#[tactic(auto, using(datatype::proofs::KindShapes::by_shape), unfolding(crate::specs::PrintedLength::quotes_names))]
pub(crate) fn quotes_names(children: Nodes<'_>, kind: u32) -> bool
    ensures { result ≡ quotes_names (shape_of kind) (roots (labels_in children.entry)) }
{
    match kind {
        STRUCT | UNION | MAP => true,
        RUN_END_ENCODED => quotes_pair(children),
        _ => false,
    }
}
