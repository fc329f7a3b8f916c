//! What is said of the units that no correct node sent.

use crate::tapped::Passed;
use beyond::NodeKind;
use wire_base::Side;

/// The first unit of each side that no correct node sent after what had passed, whatever came to it of that, whatever was lost or damaged, and
/// whatever its user did; none where that is not known of any. Or what shows that the recording is not whole, and then nobody is accused from there
/// on.
#[derive(Clone, Copy, Debug, PartialEq, Eq)]
pub struct Accused {
    pub a: Option<Accusation>,
    pub b: Option<Accusation>,
    /// Where side a is not accused: its first data segment that no correct node sent that sends every packet it composed.
    pub segment_a: Option<Passed>,
    /// So for side b.
    pub segment_b: Option<Passed>,
    /// What shows that the recording is not whole. What is said besides had passed before it.
    pub broken: Option<Broken>,
    /// What the first Init message of side a that tells it says that its node is.
    pub kind_a: Option<NodeKind>,
    /// So for side b.
    pub kind_b: Option<NodeKind>,
}

impl Accused {
    /// Nobody is accused.
    pub const NOBODY: Accused = Accused {
        a: None,
        b: None,
        segment_a: None,
        segment_b: None,
        broken: None,
        kind_a: None,
        kind_b: None,
    };
}

/// A unit that no correct node sent, but for a node that does what the exception names.
#[derive(Clone, Copy, Debug, PartialEq, Eq)]
pub struct Accusation {
    pub passed: Passed,
    pub unless: Option<Exception>,
}

/// What a correct node may do though these rules refuse it: a side that does so is not at fault.
#[derive(Clone, Copy, Debug, PartialEq, Eq)]
pub enum Exception {
    /// Its acknowledgements wait in a queue of their own: a data acknowledgement message goes back.
    AcknowledgementQueue,
    /// It is a router: the packet is from the other node to itself.
    IsRouter,
    /// The line leads to a router: the packet is from or to this node, which is neither of the two.
    NamesOther { node: u16 },
    /// Its user gave up the call before it was answered: a DI to address 0.
    GaveUpCall,
    /// Messages of the other subchannel acknowledged its data: a segment goes again changed.
    OtherSubchannel,
}

/// What shows that a recording is not whole, or not of this line. Whoever was accused of a unit that had passed before it stays accused; of later
/// units nobody is.
#[derive(Clone, Copy, Debug, PartialEq, Eq)]
pub enum Broken {
    /// The first unit of this side is neither a STRT, nor a STACK after a STRT of the other side: the recording begins in the middle of a running
    /// line. Then nobody is accused of any unit.
    Begins {
        side: Side,
    },
    /// So many bytes between two units of this side belong to no unit, SYN and pads not among them, and this unit, which else were accused, passed
    /// after the first of the two. A message was damaged before this point, or a piece of the recording is missing.
    Skipped {
        side: Side,
        bytes: u64,
        before: Passed,
    },
    /// The data of this unit do not match their block check: it was damaged before this point, or a piece of it is missing.
    Damaged {
        passed: Passed,
    },
    /// Readable packets of both sides have the addresses of the nodes exchanged: the head is wrong.
    Exchanged,
    /// This side's data units have packets, and none of them is from its node to the other one: the head is wrong, or the line leads to a router.
    NotBetween {
        side: Side,
    },
}
