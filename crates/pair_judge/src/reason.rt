//! Why a pair is refused, as people see it.

ghost use Rattle.std.specs.Prelude.{◌≡◌};
ghost use Rattle.pair_judge.specs.Reason as spec;

use crate::reason_kind::{Blame, Matter};
use dna_node::Cause;
use dna_station::{LinkRefusal, StationRefusal, StepRefusal};
use std::fmt;

/// Why a record can't be made, with the number and the name that are printed.
///
/// What others ask of a reason is in its row ([`Reason::matter`], [`Reason::blame`]): so they need not know each reason.
#[derive(Clone, Copy, Debug, PartialEq, Eq)]
pub enum Reason {
    /// 1: the bytes that were sent are no sound message.
    NotAMessage,
    /// 2: the hint is at or below an earlier one.
    HintOrder,
    /// 3: the other side never sends the unit.
    NoSuchUnit,
    /// 4: neither side can go on.
    NoOrder,
    /// 5: the bytes differ from the unit's, and no block check shows it.
    Undetected,
    /// 6: the message may not be sent in this state.
    WrongState,
    /// 7: NUM is not the number that is due.
    WrongNumber,
    /// 8: RESP is not the number of the last data message received.
    WrongResponse,
    /// 9: 255 numbers are outstanding.
    WindowFull,
    /// 10: a packet is sent again with other bytes.
    Changed,
    /// 11: a NAK without its cause.
    NoCause,
    /// 12: the receipt claims to have taken a packet, and takes none.
    WrongKeep,
    /// 13: a message that is acted on belongs to another pair of starts.
    CrossedPeriod,
    /// 14: the user may not do that in this state.
    WrongUserEvent,
    /// 15: the packet is none that the circuit carries.
    BadPacket,
    /// 16: a packet from or to another node.
    WrongNode,
    /// 17: the packet's message is no NSP message.
    BadNsp,
    /// 18: there is no such link.
    NoLink,
    /// 19: the link's phase does not allow it.
    LinkState,
    /// 20: not the segment that is due.
    WrongSegment,
    /// 21: an acknowledgement outside its range.
    WrongAck,
    /// 22: a segment longer than the partner takes.
    SegmentTooLong,
    /// 23: 2,047 segments are outstanding.
    LinkWindowFull,
    /// 24: not the message that is delivered next.
    WrongDelivery,
    /// 25: a message that is acted on belongs to another link.
    CrossedLink,
    /// 26: the address is in use.
    AddressInUse,
    /// 27: the bytes that nobody sent show no damage.
    NotNoise,
}

impl Reason {
    ghost use Rattle.pair_judge.specs.Reason.{reason_blame, reason_name, reason_number, reason_matter};

    // The table: each reason's number and name, what its rule is about, and by whose fault it is.
    fn row<'a>(self) -> (u8, &'a str, Matter, Blame)
        ensures number { result.0 ≡ reason_number self }
        ensures name { result.1.now ≡ reason_name self }
        ensures matter { result.2 ≡ reason_matter self }
        ensures blame { result.3 ≡ reason_blame self }
    {
        match self {
            Reason::NotAMessage => (1, "NotAMessage", Matter::Soundness, Blame::Sender),
            Reason::HintOrder => (2, "HintOrder", Matter::Hints, Blame::Hints),
            Reason::NoSuchUnit => (3, "NoSuchUnit", Matter::Hints, Blame::Hints),
            Reason::NoOrder => (4, "NoOrder", Matter::Hints, Blame::Hints),
            Reason::Undetected => (5, "Undetected", Matter::Passage, Blame::LineOrCaptures),
            Reason::WrongState => (6, "WrongState", Matter::State, Blame::Sender),
            Reason::WrongNumber => (7, "WrongNumber", Matter::Station, Blame::Sender),
            Reason::WrongResponse => (8, "WrongResponse", Matter::Response, Blame::Sender),
            Reason::WindowFull => (9, "WindowFull", Matter::Station, Blame::Sender),
            Reason::Changed => (10, "Changed", Matter::Station, Blame::Sender),
            Reason::NoCause => (11, "NoCause", Matter::Station, Blame::Sender),
            Reason::WrongKeep => (12, "WrongKeep", Matter::Station, Blame::Claim),
            Reason::CrossedPeriod => (13, "CrossedPeriod", Matter::Period, Blame::Nobody),
            Reason::WrongUserEvent => (14, "WrongUserEvent", Matter::Station, Blame::Starter),
            Reason::BadPacket => (15, "BadPacket", Matter::Packet, Blame::Sender),
            Reason::WrongNode => (16, "WrongNode", Matter::Nodes, Blame::SenderOrHeads),
            Reason::BadNsp => (17, "BadNsp", Matter::Nsp, Blame::Sender),
            Reason::NoLink => (18, "NoLink", Matter::LinkNow, Blame::SenderOrUser),
            Reason::LinkState => (19, "LinkState", Matter::LinkNow, Blame::SenderOrUser),
            Reason::WrongSegment => (20, "WrongSegment", Matter::LinkNow, Blame::Sender),
            Reason::WrongAck => (21, "WrongAck", Matter::LinkNow, Blame::Sender),
            Reason::SegmentTooLong => (22, "SegmentTooLong", Matter::Link, Blame::Sender),
            Reason::LinkWindowFull => (23, "LinkWindowFull", Matter::Link, Blame::Sender),
            Reason::WrongDelivery => (24, "WrongDelivery", Matter::Link, Blame::Claim),
            Reason::CrossedLink => (25, "CrossedLink", Matter::LinkNow, Blame::Nobody),
            Reason::AddressInUse => (26, "AddressInUse", Matter::Link, Blame::Chooser),
            Reason::NotNoise => (27, "NotNoise", Matter::Soundness, Blame::Claim),
        }
    }

    /// Its number, 1 to 27.
    pub fn number(self) -> u8
        ensures { result ≡ reason_number self }
    {
        let (number, ..) = self.row();
        number
    }

    /// What the rule is about that is broken.
    pub fn matter(self) -> Matter
        ensures { result ≡ reason_matter self }
    {
        let (_, _, matter, _) = self.row();
        matter
    }

    /// Whether the bytes of a record are not those of its unit, and show no damage.
    pub fn is_of_changed_bytes(self) -> bool
        ensures { result ≡ spec.is_of_changed_bytes self }
    {
        match self.matter() {
            Matter::Passage => true,
            _ => false,
        }
    }

    /// By whose fault it is.
    pub fn blame(self) -> Blame
        ensures { result ≡ reason_blame self }
    {
        let (_, _, _, blame) = self.row();
        blame
    }

    /// The cause whose reason it is.
    pub fn cause(self) -> Cause
        ensures { spec.reason_of result ≡ self }
    {
        match self {
            Reason::NotAMessage => Cause::Step(StepRefusal::NotAMessage),
            Reason::HintOrder => Cause::Step(StepRefusal::HintOrder),
            Reason::NoSuchUnit => Cause::NoSuchUnit,
            Reason::NoOrder => Cause::NoOrder,
            Reason::Undetected => Cause::Step(StepRefusal::Undetected),
            Reason::WrongState => station(StationRefusal::WrongState),
            Reason::WrongNumber => station(StationRefusal::WrongNumber),
            Reason::WrongResponse => station(StationRefusal::WrongResponse),
            Reason::WindowFull => station(StationRefusal::WindowFull),
            Reason::Changed => station(StationRefusal::Changed),
            Reason::NoCause => station(StationRefusal::NoCause),
            Reason::WrongKeep => station(StationRefusal::WrongKeep),
            Reason::CrossedPeriod => station(StationRefusal::CrossedPeriod),
            Reason::WrongUserEvent => station(StationRefusal::WrongUserEvent),
            Reason::BadPacket => Cause::Step(StepRefusal::BadPacket),
            Reason::WrongNode => links(LinkRefusal::WrongNode),
            Reason::BadNsp => Cause::Step(StepRefusal::BadNsp),
            Reason::NoLink => links(LinkRefusal::NoLink),
            Reason::LinkState => links(LinkRefusal::LinkState),
            Reason::WrongSegment => links(LinkRefusal::WrongSegment),
            Reason::WrongAck => links(LinkRefusal::WrongAck),
            Reason::SegmentTooLong => links(LinkRefusal::SegmentTooLong),
            Reason::LinkWindowFull => links(LinkRefusal::LinkWindowFull),
            Reason::WrongDelivery => links(LinkRefusal::WrongDelivery),
            Reason::CrossedLink => links(LinkRefusal::CrossedLink),
            Reason::AddressInUse => links(LinkRefusal::AddressInUse),
            Reason::NotNoise => Cause::Step(StepRefusal::NotNoise),
        }
    }

    /// The reason of a cause.
    pub fn of_cause(cause: Cause) -> Reason
        ensures { result ≡ spec.reason_of cause }
    {
        match cause {
            Cause::NoSuchUnit => Reason::NoSuchUnit,
            Cause::NoOrder => Reason::NoOrder,
            Cause::Step(refusal) => Reason::of_step(refusal),
        }
    }

    fn of_step(refusal: StepRefusal) -> Reason
        ensures { result ≡ spec.reason_of_step refusal }
    {
        match refusal {
            StepRefusal::NotAMessage => Reason::NotAMessage,
            StepRefusal::HintOrder => Reason::HintOrder,
            StepRefusal::Undetected => Reason::Undetected,
            StepRefusal::Station(refusal) => Reason::of_station(refusal),
            StepRefusal::BadPacket => Reason::BadPacket,
            StepRefusal::BadNsp => Reason::BadNsp,
            StepRefusal::Links(refusal) => Reason::of_links(refusal),
            StepRefusal::NotNoise => Reason::NotNoise,
        }
    }

    fn of_links(refusal: LinkRefusal) -> Reason
        ensures { result ≡ spec.reason_of_links refusal }
    {
        match refusal {
            LinkRefusal::WrongNode => Reason::WrongNode,
            LinkRefusal::NoLink => Reason::NoLink,
            LinkRefusal::LinkState => Reason::LinkState,
            LinkRefusal::WrongSegment => Reason::WrongSegment,
            LinkRefusal::WrongAck => Reason::WrongAck,
            LinkRefusal::SegmentTooLong => Reason::SegmentTooLong,
            LinkRefusal::LinkWindowFull => Reason::LinkWindowFull,
            LinkRefusal::WrongDelivery => Reason::WrongDelivery,
            LinkRefusal::CrossedLink => Reason::CrossedLink,
            LinkRefusal::AddressInUse => Reason::AddressInUse,
        }
    }

    fn of_station(refusal: StationRefusal) -> Reason
        ensures { result ≡ spec.reason_of_station refusal }
    {
        match refusal {
            StationRefusal::WrongState => Reason::WrongState,
            StationRefusal::WrongNumber => Reason::WrongNumber,
            StationRefusal::WrongResponse => Reason::WrongResponse,
            StationRefusal::WindowFull => Reason::WindowFull,
            StationRefusal::Changed => Reason::Changed,
            StationRefusal::NoCause => Reason::NoCause,
            StationRefusal::WrongKeep => Reason::WrongKeep,
            StationRefusal::CrossedPeriod => Reason::CrossedPeriod,
            StationRefusal::WrongUserEvent => Reason::WrongUserEvent,
        }
    }
}

fn station(refusal: StationRefusal) -> Cause
    ensures { result ≡ Cause.Step (StepRefusal.Station refusal) }
{
    Cause::Step(StepRefusal::Station(refusal))
}

fn links(refusal: LinkRefusal) -> Cause
    ensures { result ≡ Cause.Step (StepRefusal.Links refusal) }
{
    Cause::Step(StepRefusal::Links(refusal))
}

/// All reasons, in the order of their numbers.
pub static REASONS: [Reason; 27] = [
    Reason::NotAMessage,
    Reason::HintOrder,
    Reason::NoSuchUnit,
    Reason::NoOrder,
    Reason::Undetected,
    Reason::WrongState,
    Reason::WrongNumber,
    Reason::WrongResponse,
    Reason::WindowFull,
    Reason::Changed,
    Reason::NoCause,
    Reason::WrongKeep,
    Reason::CrossedPeriod,
    Reason::WrongUserEvent,
    Reason::BadPacket,
    Reason::WrongNode,
    Reason::BadNsp,
    Reason::NoLink,
    Reason::LinkState,
    Reason::WrongSegment,
    Reason::WrongAck,
    Reason::SegmentTooLong,
    Reason::LinkWindowFull,
    Reason::WrongDelivery,
    Reason::CrossedLink,
    Reason::AddressInUse,
    Reason::NotNoise,
];

/// Printed as its name.
impl fmt::Display for Reason {
    ghost use Rattle.std.specs.Prelude.{Some};
    ghost use Rattle.pair_judge.specs.Reason.{reason_name};

    ghost output = { λ reason. Some (reason_name reason) };

    fn fmt<W: fmt::Write>(&self, f: &mut fmt::Formatter<W>) -> fmt::Result {
        let (_, name, ..) = self.row();
        f.write_str(name)
    }
}
