//! The judge of one end whose capture begins in its midst: its station alone, without links and without the other end.
#![tactic(auto)]

mod judging_part;
mod laws;
mod part_end;

pub use judging_part::judge_part;
pub use laws::refused_part_is_no_piece;
pub use part_end::{MadeInPart, PartEnd};
