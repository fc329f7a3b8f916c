//! Why nobody is accused.

use crate::accusation::Accusation;
use crate::other_node::OtherNodeObject;
use std::fmt;
use wire_base::Side;

/// That the recording begins in the middle of a running line, that a DC may have waited in a queue, or which other node the packet names, as a JSON
/// object with its LF; nothing where none of these is why nobody is accused.
#[derive(Clone, Copy)]
pub struct NobodyObject {
    pub side: Side,
    pub accusation: Accusation,
}

impl fmt::Display for NobodyObject {
    fn fmt<W: fmt::Write>(&self, f: &mut fmt::Formatter<W>) -> fmt::Result {
        let side = self.side;
        let what = match self.accusation {
            Accusation::Running => "begins_running",
            Accusation::DcWaited => "dc_waited",
            Accusation::OtherNode(other) => {
                return write!(f, "{}", OtherNodeObject { side, other });
            }
            _ => return Ok(()),
        };
        write!(f, "{{\"what\": \"{what}\", \"side\": \"{side}\"}}\n")
    }
}
