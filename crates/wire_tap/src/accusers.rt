//! What accuses one side of a line.

ghost use Rattle.std.specs.Prelude.{◌≡◌, [], ◌∷◌, ◌++◌, Bool, List, OnOk, IfOk};
ghost use Rattle.dna_station.specs.declared.head.Head.{Head};
ghost use Rattle.accusing.specs.Placing.{Passed as Seen, Own, Other};
ghost use Rattle.accusing_segments.specs.History.{history};
ghost use Rattle.accusing_segments.specs.Wrong.{is_wrong_unit};
ghost use Rattle.wire_tap.specs.Accusing.{charge_of, head_of, is_doubted, packet_charge, packet_charge_if};
ghost use Rattle.wire_tap.specs.inner.Accused.{IsSaid, Know, KnowIf, PacketsKnow, PacketsKnowIf};

use crate::exception::Charge;
use accusing::{Accuser, Answer};
use accusing_links::{AckAccuser, LinkAccuser};
use accusing_segments::SegmentAccuser;
use std::alloc::{AllocError, Global};

/// What accuses a side: of its units, and if it is asked of what is in its data units.
#[derive(Drop)]
pub(crate) struct Accusers {
    pub(crate) station: Accuser,
    pub(crate) packets: Option<PacketAccusers>,
}

/// What accuses a side of what is in its data units: of each by itself, of acknowledgements by those before, and of segments by their length, by what
/// went before under their numbers, and by their order.
#[derive(Drop)]
pub(crate) struct PacketAccusers {
    pub(crate) links: LinkAccuser,
    pub(crate) acks: AckAccuser,
    pub(crate) segments: SegmentAccuser,
}

/// What is said of a unit.
#[derive(Clone, Copy)]
pub(crate) enum Said {
    /// No correct node sent it.
    Charged(Charge),
    /// No correct node that sends all it composed sent the segment in it.
    Doubted,
    Nothing,
}

impl Accusers {
    /// Nothing passed yet: of the node with this address, with that one at the other end; over the line alone of its units by themselves.
    pub(crate) fn new(alloc: Global, own: u16, peer: u16, line_alone: bool) -> Accusers
        ensures { Know line_alone (head_of own peer) [] result }
    {
        Accusers {
            station: Accuser::new(alloc),
            packets: packets_of(alloc, own, peer, line_alone),
        }
    }

    /// This unit of the other side passed.
    pub(crate) fn other_passed(&mut self, unit: &[u8]) -> Result<(), AllocError>
        ensures { (line_alone : Bool) (head : Head) (passed : List Seen) → Know line_alone head passed self.old
            → OnOk result (Know line_alone head (passed ++ Other unit.now ∷ []) self.new) }
    {
        self.station.other_passed(unit);
        hear(&mut self.packets, unit)
    }

    /// What is said of this unit of the side. Where it is not accused, it passed.
    pub(crate) fn own_passed(&mut self, unit: &[u8]) -> Result<Said, AllocError>
        ensures said { (line_alone : Bool) (head : Head) (passed : List Seen) → Know line_alone head passed self.old
            → IfOk result (λ said. IsSaid said (charge_of line_alone head passed unit.now) (is_doubted line_alone passed unit.now)) }
        ensures known { (line_alone : Bool) (head : Head) (passed : List Seen) → Know line_alone head passed self.old
            → IfOk result (λ said. KnowIf said line_alone head (passed ++ Own unit.now ∷ []) self.new) }
    {
        let said = ask(&self.packets, unit);
        if let Answer::CannotHave(_) = self.station.sends(unit)? {
            return Ok(Said::Charged(Charge::Station));
        }
        match said {
            Said::Charged(charge) => Ok(Said::Charged(charge)),
            Said::Doubted => {
                send(&mut self.packets, unit)?;
                Ok(Said::Doubted)
            }
            Said::Nothing => {
                send(&mut self.packets, unit)?;
                Ok(Said::Nothing)
            }
        }
    }
}

fn packets_of(alloc: Global, own: u16, peer: u16, line_alone: bool) -> Option<PacketAccusers>
    ensures { PacketsKnowIf line_alone (head_of own peer) [] result }
{
    if line_alone {
        return None;
    }
    Some(PacketAccusers {
        links: LinkAccuser::new(alloc, own, peer),
        acks: AckAccuser::new(alloc),
        segments: SegmentAccuser::new(alloc),
    })
}

// This unit of the other side passed.
fn hear(packets: &mut Option<PacketAccusers>, unit: &[u8]) -> Result<(), AllocError>
    ensures { (line_alone : Bool) (head : Head) (passed : List Seen) → PacketsKnowIf line_alone head passed packets.old
        → OnOk result (PacketsKnowIf line_alone head (passed ++ Other unit.now ∷ []) packets.new) }
{
    match packets {
        Some(packets) => packets.other_passed(unit),
        None => Ok(()),
    }
}

// This side sent this unit.
fn send(packets: &mut Option<PacketAccusers>, unit: &[u8]) -> Result<(), AllocError>
    ensures { (line_alone : Bool) (head : Head) (passed : List Seen) → PacketsKnowIf line_alone head passed packets.old
        → OnOk result (PacketsKnowIf line_alone head (passed ++ Own unit.now ∷ []) packets.new) }
{
    match packets {
        Some(packets) => packets.own_passed(unit),
        None => Ok(()),
    }
}

// What is said of what is in this unit.
fn ask(packets: &Option<PacketAccusers>, unit: &[u8]) -> Said
    ensures { (line_alone : Bool) (head : Head) (passed : List Seen) → PacketsKnowIf line_alone head passed packets.now
        → IsSaid result (packet_charge_if line_alone head passed unit.now) (is_doubted line_alone passed unit.now) }
{
    match packets {
        Some(packets) => packets.say(unit),
        None => Said::Nothing,
    }
}

impl PacketAccusers {
    fn other_passed(&mut self, unit: &[u8]) -> Result<(), AllocError>
        ensures { (head : Head) (passed : List Seen) → PacketsKnow head passed self.old
            → OnOk result (PacketsKnow head (passed ++ Other unit.now ∷ []) self.new) }
    {
        self.links.other_passed(unit)?;
        self.acks.other_passed(unit)?;
        self.segments.other_passed(unit)
    }

    fn own_passed(&mut self, unit: &[u8]) -> Result<(), AllocError>
        ensures { (head : Head) (passed : List Seen) → PacketsKnow head passed self.old
            → OnOk result (PacketsKnow head (passed ++ Own unit.now ∷ []) self.new) }
    {
        self.acks.own_passed(unit)?;
        self.segments.own_passed(unit)
    }

    // By what no correct node sent what is in this unit.
    fn say(&self, unit: &[u8]) -> Said
        ensures { (head : Head) (passed : List Seen) → PacketsKnow head passed self.now
            → IsSaid result (packet_charge head passed unit.now) (is_wrong_unit (history passed) unit.now) }
    {
        if let Some(_) = self.links.sends(unit) {
            return Said::Charged(Charge::Packet);
        }
        if self.acks.accuses(unit) {
            return Said::Charged(Charge::Back);
        }
        if self.segments.is_too_long(unit) {
            return Said::Charged(Charge::TooLong);
        }
        if self.segments.is_changed(unit) {
            return Said::Charged(Charge::Changed);
        }
        if self.segments.accuses(unit) {
            return Said::Doubted;
        }
        Said::Nothing
    }
}
