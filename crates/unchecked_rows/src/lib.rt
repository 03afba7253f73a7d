// What the words of a row table say of subtrees, whether the tree is sound or not: levels, parents, union ids, Map's
// entries, and equality.

#![tactic(auto)]

mod equality;
mod levels;
mod map_entries;
mod parents;
mod union_fields;

pub use equality::equal_trees;
pub use levels::levels_of;
pub use map_entries::check_entries;
pub use parents::{parents_fit, set_first_parents, set_parents};
pub use union_fields::try_new;
