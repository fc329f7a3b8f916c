//! Laws of `pair_judge`, `pair_player` and the definitions as a caller applies them, each to a case of its own.
#![tactic(auto)]

mod refusals;
mod run_laws;
mod step_laws;

pub use refusals::refusal_of;
