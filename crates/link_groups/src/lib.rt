//! Which own addresses of both ends are bound to each other, one after another, and which are left out: no text, no packet, no verdict.
#![tactic(auto)]

mod groups;
mod left_groups;
mod left_out;
mod own_address;

pub use groups::Groups;
pub use left_groups::LeftGroups;
pub use left_out::LeftOut;
pub use own_address::OwnAddress;
