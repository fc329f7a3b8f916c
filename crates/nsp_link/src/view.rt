//! What is shown of a link.

use dna_links::{LinkQueue, Port};

/// One end of a logical link at one moment (NSP 4.0, ports), to be shown.
#[derive(Clone, Copy, PartialEq, Eq)]
pub struct LinkView {
    /// Its phase, who opened it, and its own and its far address, as far as they are known.
    pub port: Port,
    /// The number of the other node's link that it goes with, once it is known.
    pub partner: Option<u64>,
    /// How many data bytes the partner takes in a segment: the SEGSIZE of the CI or CC that was acted on, and 0 before.
    pub segsize: u16,
    /// The numbers of its segments.
    pub numbers: LinkNumbers,
    /// What the queues of its node leave open of it; without queues as it began.
    pub queue: LinkQueue,
}

/// The numbers of a link's segments, both ways (NSP 4.0, data segments and acknowledgements), 0 to 4,095 as messages have them. All are 0
/// where the link has ended.
#[derive(Clone, Copy, PartialEq, Eq)]
pub struct LinkNumbers {
    /// The highest number given; while there is none, 0.
    pub given: u16,
    /// The highest number that the partner acknowledged; while there is none, 0.
    pub acknowledged: u16,
    /// How many segments are outstanding, 0 to 2,047: those from the one after the highest acknowledged through the highest given.
    pub outstanding: usize,
    /// The highest number received without a gap; while there is none, 0.
    pub received: u16,
    /// The last acknowledgement sent; while there is none, 0.
    pub last_sent: u16,
}
