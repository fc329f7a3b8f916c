//! `draw` between the names of its files and its status: the rows of a ladder or its picture, with all refusals marked where that is asked.
#![tactic(auto)]

mod all_draw;
mod all_drawn;
pub mod draw;
pub mod draw_files;
mod picture;
