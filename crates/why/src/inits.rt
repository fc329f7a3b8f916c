//! What both nodes say that they are, in their Init messages.

use beyond::{NodeKind, kind_in_unit};
use capture_record::{Entry, Fate};
use wire_base::Side;

// Where the first byte of a packet is in a unit, and what it is in an Init message.
const PACKET: usize = 8;

const INIT: u8 = 1;

/// What the first Init message of each side that tells it says.
#[derive(Clone, Copy)]
pub(crate) struct Inits {
    pub(crate) a: Option<NodeKind>,
    pub(crate) b: Option<NodeKind>,
}

impl Inits {
    /// None passed.
    pub(crate) const NONE: Inits = Inits { a: None, b: None };

    /// This side made the record of this entry and these bytes.
    pub(crate) fn note(&mut self, side: Side, entry: Entry, bytes: &[u8]) {
        if bytes.get(PACKET).copied() != Some(INIT) {
            return;
        }
        match entry {
            Entry::Sent => self.hear(side, bytes),
            Entry::Received {
                fate: Fate::Kept,
                hint: _,
            } => self.hear(side.other(), bytes),
            _ => {}
        }
    }

    // A unit of this side, which may have an Init message.
    fn hear(&mut self, side: Side, unit: &[u8]) {
        match side {
            Side::A => self.a = first(self.a, unit),
            Side::B => self.b = first(self.b, unit),
        }
    }
}

fn first(known: Option<NodeKind>, unit: &[u8]) -> Option<NodeKind> {
    match known {
        Some(kind) => Some(kind),
        None => kind_in_unit(unit),
    }
}
