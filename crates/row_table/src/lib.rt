// The row table: soundness, the rows of a sound tree as nodes, and its depth.

#![tactic(auto)]

mod children;
mod levels;
mod names;
pub mod nodes;
mod rules;
mod sound;

pub use levels::depth_of;
pub use sound::{is_sound, is_sound_table};
