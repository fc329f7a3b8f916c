//! What is shown of a station.

use dna_station::State;

/// The variables of a station at one moment (DDCMP 4.1, station variables), to be shown. Numbers of packets are those of the line, 0 to 255.
#[derive(Clone, Copy, PartialEq, Eq)]
pub struct StationView {
    /// HALTED, ISTRT, ASTRT or RUNNING.
    pub state: State,
    /// How many starts there were: the number of the present period, 0 before the first.
    pub period: u64,
    /// The other side's period that the present one goes with, once it is known.
    pub partner: Option<u64>,
    /// R, the number of the last packet received in order; while there is none, 0.
    pub received: u8,
    /// A, the highest number acknowledged; while there is none, 0.
    pub acknowledged: u8,
    /// N, the highest number given, which is A where no packet is outstanding.
    pub given: u8,
    /// T, the number of the next packet to send.
    pub to_send: u8,
    /// How many packets are outstanding, 0 to 255: those with the numbers A + 1 to N.
    pub outstanding: usize,
    /// What a NAK may still answer.
    pub open_causes: OpenCauses,
}

/// How many causes of a NAK are open, by the reason that needs one (DDCMP 4.1, NAK message).
#[derive(Clone, Copy, Debug, PartialEq, Eq)]
pub struct OpenCauses {
    /// Reason 1: units, or noise, that came with a bad header.
    pub header_check: u64,
    /// Reason 2: units, or noise, that came with bad data.
    pub data_check: u64,
    /// Reason 3: REPs that asked for a number other than R.
    pub rep_response: u64,
    /// Reason 8: packets that were the next, and for which there was no buffer.
    pub no_buffer: u64,
}
