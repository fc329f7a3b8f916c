//! Why the links of a node can't make a step.

/// Why the links of a node refuse a step. Each has the number of the reason that the judge prints for it.
#[derive(Clone, Copy, Debug, PartialEq, Eq)]
pub enum LinkRefusal {
    /// The packet is not from the one node to the other (reason 16).
    WrongNode,
    /// There is no such link (reason 18).
    NoLink,
    /// The link is in a phase in which this is not done; or a DC is sent for a link that is live (reason 19).
    LinkState,
    /// A segment that is sent is neither the next piece of what was handed in nor a true repeat (reason 20).
    WrongSegment,
    /// An acknowledgement word that is sent names a number above the highest received without a gap, or one too far back (reason 21).
    WrongAck,
    /// A new segment is longer than the other side takes (reason 22).
    SegmentTooLong,
    /// A new segment while 2,047 are not acknowledged (reason 23).
    LinkWindowFull,
    /// The message that is delivered is not the next whole one that came (reason 24).
    WrongDelivery,
    /// A message that is acted on belongs to another pair of links (reason 25).
    CrossedLink,
    /// The own address belongs to a live link (reason 26).
    AddressInUse,
}
