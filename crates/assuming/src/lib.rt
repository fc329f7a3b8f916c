//! What is assumed of both nodes of a line, so that what was found of what they did is right at their links: boots, calls given up, which packets
//! were kept before a restart, and what a message began or answered.
//!
//! The crate reads two captures that a tap wrote. It keeps links by the rules with which `check --queued` refuses, as far as an assumption may mend
//! it, and goes on from the record that it reached: what is assumed is undone and tried otherwise there and then. It judges nobody: the captures
//! that are written of what it assumes are judged.
#![tactic(auto)]

mod assumptions;
mod book;
mod candidates;
mod event;
mod lines;
mod link;
mod loading;
mod log;
mod mending;
mod message;
mod places;
mod point;
mod proposals;
mod receiving;
mod refused;
mod run_message;
mod seeker;
mod sending;
mod sifted;
mod spots;
mod steps;
mod tags;
mod tracks;

pub use assumptions::{Assumptions, assume};
pub use lines::tell_lines;
