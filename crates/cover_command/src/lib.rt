//! `cover` between the names of its files and its status: what pairs went through, counted, added and printed.
#![tactic(auto)]

pub mod cover;
pub mod cover_files;
mod cover_objects;
mod went;
