//! The player: a script is read line by line, its steps are made by two ends of a line, and the captures of both are written.
//!
//! The crate decides which bytes are a script, which steps they spell, where and how a text departs from the format, and what each
//! step makes of the two ends. It never touches a file or a clock, nor a judge.
#![tactic(auto)]

mod ends;
mod fault;
mod laws;
mod limit;
mod line;
mod played;
mod playing;
mod run_laws;
mod script_reader;
mod step;
mod texts;
mod words;

pub use ends::Ends;
pub use fault::PlayFault;
pub use laws::played_whole;
pub use limit::MAX_STEPS;
pub use played::Played;
pub use player_end::StepFault;
pub use playing::{NeedsFormat3, play, play_at_once};
pub use run_laws::{
    answered_as_true_ends, starts_once_throughout, stopped_by_its_rule, what_an_end_may_send,
    written_captures_are_a_run, written_captures_are_texts,
};
pub use script_reader::{ScriptReader, Steps};
pub use step::{LineEntry, ScriptStep, Step};
