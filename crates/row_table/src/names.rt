// Where names and zones stand: in the name list, or in the text, where they cut no character.
ghost use Rattle.std.specs.Prelude.{◌≡◌, ◌&&◌, ◌||◌, nat_eq};
ghost use Rattle.tokenizer.specs.Text.{same};
ghost use Rattle.datatype.specs.Kind.{shape_of};
ghost use Rattle.datatype.specs.Tree.{name_list};
ghost use Rattle.row_table.specs.Sound.{is_listed, rules_of};
ghost use Rattle.row_table.specs.Internal.Check.{standing_of, part_fits, name_ok, zone_ok};

use crate::rules::Standing;
use datatype::kind::TIMESTAMP;
use datatype::rows::{NON_NULL, NULLABLE};
use datatype::{Field, equal_bytes};

// Whether a name list is the three default names, end to end.
pub(crate) fn is_name_list(names: &[u8]) -> bool
    ensures { result ≡ same names.now name_list }
{
    equal_bytes(names, &Field::NAME_LIST)
}

// Whether a name is one of the three default names, by the part of the name list that it is.
fn is_listed(name: Field) -> bool
    ensures { result ≡ (nat_eq name.home 2 && is_listed name.start name.size) }
{
    matches!(
        name,
        Field::LIST_FIELD | Field::REE_RUN_ENDS_FIELD | Field::REE_VALUES_FIELD
    )
}

// Whether a bare row has neither role nor name.
fn is_bare(role: u32, name: Field) -> bool
    ensures { result ≡ (nat_eq role 0 && nat_eq name.home 0 && nat_eq name.start 0 && nat_eq name.size 0) }
{
    role == 0 && name.home == 0 && name.start == 0 && name.size == 0
}

// Whether a part of a text is not empty, lies within the text and cuts no character.
#[tactic(auto, using(crate::proofs::NameLaws::parts))]
fn part_fits(text: &str, start: u32, size: u32) -> bool
    ensures { result ≡ part_fits text.now start size }
{
    let from = start as usize;
    let to = from + size as usize;
    size != 0 && text.is_char_boundary(from) && text.is_char_boundary(to)
}

// Whether a name stands in the text, where it fits, or in the name list, as one of the three default names.
fn is_named(text: &str, name: Field) -> bool
    ensures { result ≡ (nat_eq name.home 1 && part_fits text.now name.start name.size || nat_eq name.home 2 && is_listed name.start name.size) }
{
    match name.home {
        Field::IN_TEXT => part_fits(text, name.start, name.size),
        _ => is_listed(name),
    }
}

// Whether role and name are those of a row of a standing.
#[tactic(auto, unfolding(crate::specs::Internal::Check::name_ok))]
pub(crate) fn name_fits(text: &str, standing: Standing, role: u32, name: Field) -> bool
    ensures { result ≡ name_ok text.now (standing_of standing) role name.home name.start name.size }
{
    match standing {
        Standing::Bare => is_bare(role, name),
        Standing::Field | Standing::UnionField => {
            matches!(role, NULLABLE | NON_NULL) && is_named(text, name)
        }
    }
}

// Whether the zone is one that a row of a kind may have.
#[tactic(auto, using(datatype::proofs::KindShapes::by_shape), unfolding(crate::specs::Internal::Check::zone_ok, crate::specs::Sound::rules_of))]
pub(crate) fn zone_fits(text: &str, kind: u32, start: u32, size: u32) -> bool
    ensures { result ≡ zone_ok text.now (rules_of (shape_of kind)).zoned start size }
{
    if size == 0 {
        return start == 0;
    }
    kind == TIMESTAMP && part_fits(text, start, size)
}
