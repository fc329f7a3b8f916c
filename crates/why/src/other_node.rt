//! Another node than the two of the line, which a refused packet names: the line may lead to a router.

ghost use Rattle.std.specs.Prelude.{◌≡◌};
ghost use Rattle.why.specs.Refused as spec;

use crate::accusation::Accusation;
use crate::queued::Whole;
use beyond::{NodeKind, NodeWords};
use std::fmt::{self, Formatter, Write};
use wire_base::Side;

/// The node, and what the first Init message of each side that tells it says that its node is. Of one end alone side b is the other end.
#[derive(Clone, Copy, Debug, PartialEq, Eq)]
pub struct OtherNode {
    pub node: u16,
    pub kind_a: Option<NodeKind>,
    pub kind_b: Option<NodeKind>,
}

impl Accusation {
    /// Nobody is accused, where the packet names another node; but for heads that do not pair.
    pub(crate) fn naming(self, other: Option<OtherNode>) -> Accusation
        ensures { result ≡ spec.naming other self }
    {
        let Some(other) = other else {
            return self;
        };
        match self {
            Accusation::OtherSender => self,
            _ => Accusation::OtherNode(other),
        }
    }
}

/// Why nobody is accused, as rows with their LF.
#[derive(Clone, Copy)]
pub(crate) struct OtherNodeRows {
    pub(crate) whole: Whole,
    pub(crate) other: OtherNode,
}

impl fmt::Display for OtherNodeRows {
    fn fmt<W: Write>(&self, f: &mut Formatter<W>) -> fmt::Result {
        let OtherNode {
            node,
            kind_a,
            kind_b,
        } = self.other;
        let node = NodeWords { node };
        write!(
            f,
            "accused  nobody: {node} is another node;\n         if the line leads to a router, use --line\n"
        )?;
        write_init(f, "a", kind_a)?;
        match self.whole {
            Whole::Pair => write_init(f, "b", kind_b),
            Whole::End => write_init(f, "the other end", kind_b),
        }
    }
}

// Writes what the Init message of this side says, if it has one.
fn write_init<W: Write>(f: &mut Formatter<W>, side: &str, kind: Option<NodeKind>) -> fmt::Result {
    match kind {
        Some(kind) => write!(f, "         {side}'s Init says: {kind}\n"),
        None => Ok(()),
    }
}

/// The same as a JSON object with its LF, of a record of this side.
#[derive(Clone, Copy)]
pub(crate) struct OtherNodeObject {
    pub(crate) side: Side,
    pub(crate) other: OtherNode,
}

impl fmt::Display for OtherNodeObject {
    fn fmt<W: Write>(&self, f: &mut Formatter<W>) -> fmt::Result {
        let side = self.side;
        let OtherNode {
            node,
            kind_a,
            kind_b,
        } = self.other;
        let node = NodeWords { node };
        write!(
            f,
            "{{\"what\": \"other_node\", \"side\": \"{side}\", \"node\": \"{node}\", \"init_a\": "
        )?;
        write_kind(f, kind_a)?;
        f.write_str(", \"init_b\": ")?;
        write_kind(f, kind_b)?;
        f.write_str("}\n")
    }
}

fn write_kind<W: Write>(f: &mut Formatter<W>, kind: Option<NodeKind>) -> fmt::Result {
    match kind {
        Some(kind) => write!(f, "\"{kind}\""),
        None => f.write_str("null"),
    }
}
