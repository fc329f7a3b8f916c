//! Which check of both layers a message or an event does not pass.

ghost use Rattle.std.specs.Prelude.{◌≡◌, option_map};
ghost use Rattle.ddcmp_msg.specs.Message.{view};
ghost use Rattle.dna_packet.specs.ReadingNsp.{nsp_at};
ghost use Rattle.dna_station.specs.declared.state.StationEvent.TheVariants.{Start};
ghost use Rattle.dna_station.specs.Table.{user_refusal};
ghost use Rattle.dna_links.specs.User as links;
ghost use Rattle.dna_node.specs.WireLayers.{tag_or_none};
ghost use Rattle.ddcmp_station.specs.Arrival.{arrival_view};
ghost use Rattle.nsp_link.specs.FailedArrival as link_arrival;
ghost use Rattle.nsp_link.specs.FailedEvent as link_event;
ghost use Rattle.nsp_link.specs.FailedSending as link_sending;
ghost use Rattle.nsp_link.specs.Kinds.{queues_of};
ghost use Rattle.pair_judge.specs.FailedCheck as spec;
ghost use Rattle.pair_judge.specs.inner.Steps.{with_link};

use super::SideLayers;
use super::arriving::tag_of;
use crate::carried::carried;
use crate::failed_check::FailedCheck;
use crate::held_link::HeldLink;
use crate::packet::Carried;
use capture_record::Fate;
use ddcmp_msg::Message;
use ddcmp_station::{Arrival, SendPermit, State};
use dna_packet::read_nsp;
use dna_station::body_of;
use nsp_link::LinkEvent;

impl SideLayers {
    /// The first check that this message does not pass, if the node sent it now; `None` where it may be sent. Takes no memory.
    pub fn failed_message<const QUEUES: u8>(&self, message: &Message) -> Option<FailedCheck>
        ensures { result ≡ spec.failed_message (queues_of QUEUES) self.now (view message.now) }
    {
        match self.station.ask_to_send(message) {
            Ok(SendPermit::FirstSending) => self.failed_first::<QUEUES>(body_of(message)),
            Ok(SendPermit::Control | SendPermit::Repeat) => None,
            Err(check) => Some(FailedCheck::StationSending(
                self.station.tell_sending(message, check),
            )),
        }
    }

    /// The first check that this packet does not pass, if the node composed it now and never sent it; `None` where it may. Takes no memory.
    pub fn failed_composed<const QUEUES: u8>(&self, packet: &[u8]) -> Option<FailedCheck>
        ensures { result ≡ spec.failed_composed (queues_of QUEUES) self.now packet.now }
    {
        self.failed_first::<QUEUES>(packet)
    }

    // The check that a packet does not pass at the links, if it is first sent now.
    fn failed_first<const QUEUES: u8>(&self, packet: &[u8]) -> Option<FailedCheck>
        ensures { result ≡ spec.failed_packet
            (λ carried. option_map FailedCheck.LinkSending (link_sending.failed_sending (queues_of QUEUES) self.now.links carried)) packet.now }
    {
        match carried(packet) {
            Ok(Some(carried)) => self.failed_link_sending::<QUEUES>(carried),
            Ok(None) => None,
            Err(fault) => Some(FailedCheck::Packet(fault)),
        }
    }

    fn failed_link_sending<const QUEUES: u8>(&self, carried: Carried) -> Option<FailedCheck>
        ensures { result ≡ spec.failed_nsp
            (λ carried. option_map FailedCheck.LinkSending (link_sending.failed_sending (queues_of QUEUES) self.now.links carried))
            carried.entry.dst carried.entry.src (nsp_at carried.entry.message.now) }
    {
        match &read_nsp(carried.message) {
            Ok(message) => match self
                .links
                .ask_sending::<QUEUES>(carried.dst, carried.src, message)
            {
                Ok(_permit) => None,
                Err(failed) => Some(FailedCheck::LinkSending(failed)),
            },
            Err(fault) => Some(FailedCheck::Nsp(*fault)),
        }
    }

    /// The first check that this does not pass, if it came now with the tag of its packet and the node kept the packet or did not; `None`
    /// where it is met. Takes no memory.
    #[tactic(auto, using(crate::proofs::FailedAsRefused::without_link))]
    pub fn failed_arrival(
        &self,
        arrival: Arrival,
        link: &HeldLink,
        fate: Fate,
    ) -> Option<FailedCheck>
        ensures { result ≡ spec.failed_arrival self.now (with_link link.now (arrival_view arrival.entry)) fate }
    {
        if let Err(check) = self.station.ask_arrival::<true>(arrival, fate.is_kept()) {
            return Some(FailedCheck::StationArrival(self.station.tell_arrival(&arrival, check)));
        }
        if !fate.is_met() {
            return None;
        }
        match arrival {
            Arrival::Sound(message, _) => self.failed_kept(body_of(&message), link),
            Arrival::HeaderBad | Arrival::DataBad => None,
        }
    }

    // The check that a packet does not pass at the links, if it is kept now with the tag of its unit.
    fn failed_kept(&self, packet: &[u8], link: &HeldLink) -> Option<FailedCheck>
        ensures { result ≡ spec.failed_packet
            (λ carried. option_map FailedCheck.LinkArrival (link_arrival.failed_arrival self.now.links carried (tag_or_none link.now))) packet.now }
    {
        match carried(packet) {
            Ok(Some(carried)) => self.failed_link_arrival(carried, link),
            Ok(None) => None,
            Err(fault) => Some(FailedCheck::Packet(fault)),
        }
    }

    fn failed_link_arrival(&self, carried: Carried, link: &HeldLink) -> Option<FailedCheck>
        ensures { result ≡ spec.failed_nsp
            (λ carried. option_map FailedCheck.LinkArrival (link_arrival.failed_arrival self.now.links carried (tag_or_none link.now)))
            carried.entry.dst carried.entry.src (nsp_at carried.entry.message.now) }
    {
        match &read_nsp(carried.message) {
            Ok(message) => match self
                .links
                .ask_arrival::<true>(carried.dst, carried.src, message, tag_of(link))
            {
                Ok(_permit) => None,
                Err(failed) => Some(FailedCheck::LinkArrival(failed)),
            },
            Err(fault) => Some(FailedCheck::Nsp(*fault)),
        }
    }

    /// The check that a start of the station by its user does not pass; `None` where it is in HALTED.
    pub fn failed_start(&self) -> Option<FailedCheck>
        ensures { result ≡ spec.failed_start self.now.station.variables.state (user_refusal self.now.station.variables.state Start) }
    {
        let seen = self.station.state();
        match seen {
            State::Halted => None,
            State::Istrt | State::Astrt | State::Running => {
                Some(FailedCheck::StationEvent { seen })
            }
        }
    }

    /// The check that this event of the links' user does not pass; `None` where the user may do it. Takes no memory.
    pub fn failed_link_event<const QUEUES: u8>(&self, event: LinkEvent) -> Option<FailedCheck>
        ensures { result ≡ option_map FailedCheck.LinkEvent (link_event.failed_event (queues_of QUEUES) self.now.links (links.view event.entry)) }
    {
        match self.links.ask_user::<QUEUES>(event) {
            Ok(_permit) => None,
            Err(failed) => Some(FailedCheck::LinkEvent(failed)),
        }
    }
}
