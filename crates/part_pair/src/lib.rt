//! The judge of two captures of which at least one is a part of a run: both stations, each by what it may be, and the line between them, without
//! links. It reads two counted readers, each once, and holds of each direction the units that may still come.
#![tactic(auto)]

mod course;
mod facing;
mod found;
mod judging_parts;
mod laws;
mod side_end;
mod turn;
mod verdict;

pub use judging_parts::judge_parts;
pub use laws::refused_parts_are_no_pieces;
pub use verdict::{JudgedAlone, PartsVerdict};
