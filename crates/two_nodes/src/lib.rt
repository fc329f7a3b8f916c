//! Decides what is true of any two nodes that two lines join: which orders of their records are runs, what a record needs
//! to have happened before it, and which record is to blame where there is no run. It never touches a protocol, a byte, a
//! file or memory, and runs nothing: its functions have empty bodies, and are laws that a caller's proof cites by calling them.
#![tactic(auto)]

pub mod blaming;
pub mod cutting;
pub mod ending;
pub mod kept;
pub mod nodes;
pub mod running;

pub use blaming::{closed_beginnings, offender, refused_record};
pub use cutting::{SeenNodes, simulation};
pub use ending::{both_waiting, one_waiting};
pub use kept::{KeptProperty, always};
pub use nodes::TwoNodes;
pub use running::{any_order, exchanged_sides, missing_unit, reading_on, units_sent};

#[cfg(test)]
mod tests;
