//! What `--all` says: all that refuses a pair, or one end. What was refused is left out, and the rest is judged again and again. It opens no file.
#![tactic(auto)]

pub mod all_end;
mod all_end_told;
pub mod all_judged;
pub mod all_left;
pub mod all_pair;
pub mod all_pair_told;
mod all_read;
pub mod all_stops;
pub mod all_told;
pub mod onlooker;
