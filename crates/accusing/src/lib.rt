//! Whether one side of a line can have sent a unit, by the units of both sides that passed, and nothing else: no capture, no clock, no packet.
//! Where it says that a side can't, no right station sent these units, whatever came to it of what passed, whatever was lost or damaged, whatever
//! noise there was and whatever its user did. It does not find every wrong unit.
#![tactic(auto)]

mod accuser;
mod answer;
mod beginning;
mod going;
mod heard;
mod laws;
mod mark;
mod mode;
mod numbers;
mod wrong;

pub use accuser::Accuser;
pub use answer::Answer;
pub use laws::wrong_units_have_no_placing;
pub use wrong::Wrong;
