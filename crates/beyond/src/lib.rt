//! What packets tell of other nodes than the two of their line, and of what kind a node says that it is. These are hints: no judge asks them.
#![tactic(auto)]

mod node_kind;
mod node_words;
mod other_node;

pub use node_kind::{NodeKind, kind_in, kind_in_unit};
pub use node_words::NodeWords;
pub use other_node::{other_in, other_of};
