//! The address of a node as it is written.

ghost use Rattle.beyond.specs.NodeWords as spec;

use std::fmt;

/// Printed as `1.3`, the area and the number in it, of 1027.
#[derive(Clone, Copy)]
pub struct NodeWords {
    /// The address, the area in its six highest bits.
    pub node: u16,
}

impl fmt::Display for NodeWords {
    ghost use Rattle.std.specs.Prelude.{Some};

    ghost output = { λ words. Some (spec.node_words words.node) };

    fn fmt<W: fmt::Write>(&self, f: &mut fmt::Formatter<W>) -> fmt::Result {
        let area = self.node / 1024;
        let number = self.node % 1024;
        write!(f, "{area}.{number}")
    }
}
