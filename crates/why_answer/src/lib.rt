//! What `why` says of the first record that is refused, of a pair and of one end: the rows before it, the check that is not passed, and what small
//! edits of the captures tell. It opens no file, and reads again those that it is given.
#![tactic(auto)]

mod both_near;
mod due;
pub mod end_telling;
mod judged_again;
pub mod last_rows;
pub mod near;
pub mod queued_too;
pub mod recorder;
mod right_units;
mod rows_before;
pub mod telling;
mod trying;
mod unit_changes;
