//! The variables of a station, and its packets that are not acknowledged.

ghost use Rattle.std.specs.Prelude.{◌≡◌, ◌+◌, ◌<◌, ◌≤◌, ◌==◌, ◌&&◌, ◌++◌, ◌∷◌, [], true, false, not, nat_lt, nat_le, length, slice_get};
ghost use Rattle.std.specs.Prelude.{option_and_then, option_copied, IfOk, OnOk, OnErr};
ghost use Rattle.ddcmp_msg.specs.Message.{view};
ghost use Rattle.dna_station.specs.Book.{has_packet};
ghost use Rattle.dna_station.specs.Book as fields;
ghost use Rattle.dna_station.specs.Station.{wire};
ghost use Rattle.dna_station.specs.Table.{WINDOW, row};
ghost use Rattle.dna_station.specs.WireStation.{no_numbers, with_label};
ghost use Rattle.dna_station.specs.WireStation as wire_station;
ghost use Rattle.dna_station.specs.WireBook.{acknowledges, is_held_packet, wire_is_next, wire_is_new, wire_responded};

mod shown;

use crate::{HeldPacket, PacketBytes};
use ddcmp_msg::Message;
use dna_station::{ArrivalRow, State, num_of};
use std::alloc::{AllocError, Global};
use std::marker::{Model, PhantomData};
use wire_base::{PushFault, Seq, Window};

/// How many packets may be unacknowledged.
const MOST: u16 = 255;

/// The variables of a station (DDCMP 4.1, station variables): its state; R, the number of the last packet received in order; A, the highest
/// number acknowledged; N, the highest number given; T, the number of the next packet to send; and the packets with the numbers A + 1 to N,
/// which are outstanding. There are at most 255 of them.
///
/// Numbers are kept modulo 256, N by how many packets are outstanding, and T by how many of these are sent in the present go: T is A + 1 plus
/// as many. A contract sees the record of the state, R, A, that count, and the packets.
///
/// An example of each call, in RUNNING with R = 7 and A = 254, while 255, 0 and 1 are outstanding and 255 was sent in this go:
///
/// ```text
///  state            RUNNING         packet_to_send    packet 0
///  received         7               is_first_given    of the bytes of packet 0 alone
///  is_next          of 8 alone      label_to_send     the label beside packet 0, if it has one
///  highest          1               can_take          of data with NUM 8
///  to_send          0               may_answer        of RESP 254 to 1
///  is_outstanding   yes             receive           R = 8
///  has_room         yes             respond(0)        A = 0, N = 1, T = 1: packet 1 is left
///  is_new           no              respond(2)        nothing changes: 2 was not given
///                                   set_back          T = 255
///  new, start       R = A = N = 0   send_again        T = 1; twice: T = 2, which is new
///                   and T = 1       send_new          after that: packet 2 is the newest, and T = 3
///  go_to(HALTED)    in HALTED       label             beside packet 1, the newest
/// ```
#[derive(Drop)]
pub struct StationVariables<T: Copy, B: PacketBytes, W: Window<HeldPacket<T, B>, 256>> {
    // where its user and the startup have brought it
    state: State,
    // the last number received in order
    received: Seq<256>,
    // how many of the held packets are sent in the present go
    ahead: usize,
    // the packets given and not acknowledged; its first number is the highest acknowledged
    held: W,
    packet: PhantomData<HeldPacket<T, B>>,
}

impl<T: Copy, B: PacketBytes, W: Window<HeldPacket<T, B>, 256>> Model
    for StationVariables<T, B, W> {
    ghost use Rattle.std.specs.Prelude.{◌≡◌, ◌≤◌, length};
    ghost use Rattle.dna_station.specs.Table.{WINDOW};
    ghost use Rattle.dna_station.specs.WireStation.{StationVariables};

    ghost Value = { StationVariables T };

    ghost view = { λ k. record {
      state = k.state;
      received = k.received;
      acknowledged = (W.window k.held).first;
      ahead = k.ahead;
      held = (W.window k.held).items;
    } };

    ghost invariant = { λ k. ((W.window k.held).capacity ≡ WINDOW) × (k.ahead ≤ length (W.window k.held).items) };
}

impl<T: Copy, B: PacketBytes, W: Window<HeldPacket<T, B>, 256>> StationVariables<T, B, W> {
    /// In this state, with no number received, given or acknowledged: R, A and N are 0, and T is 1. It takes the memory that its window takes
    /// when it is made; `AllocError` where that was refused.
    pub fn new(alloc: Global, state: State) -> Result<Self, AllocError>
        ensures { IfOk result (λ variables. variables ≡ no_numbers state) }
    {
        Ok(StationVariables {
            state,
            received: Seq::of(0),
            ahead: 0,
            held: W::make(alloc, MOST, 0)?,
            packet: PhantomData,
        })
    }

    /// The state: HALTED, ISTRT, ASTRT or RUNNING (DDCMP 4.1, startup state table).
    pub fn state(&self) -> State
        ensures { result ≡ self.now.state }
    {
        self.state
    }

    // ---- numbers

    /// R, the number of the last packet received in order, 0 to 255; while there is none, 0. This is what RESP of an ACK, a NAK or data says.
    pub fn received(&self) -> u8
        ensures { result ≡ self.now.received }
    {
        self.received.value() as u8
    }

    /// Whether this is R + 1, the number of the next packet in order. After 255 that is 0.
    pub fn is_next(&self, num: u8) -> bool
        ensures { result ≡ wire_is_next self.now num }
    {
        u16::from(num) == self.received.next().value()
    }

    /// T, the number of the next packet to send, 0 to 255: a new one, or one that is outstanding and goes again.
    pub fn to_send(&self) -> u8
        ensures { result ≡ wire (self.now.acknowledged + 1 + self.now.ahead) }
    {
        self.above_acknowledged(1 + self.ahead)
    }

    /// N, the highest number given, 0 to 255; it is A where no packet is outstanding. This is what NUM of a REP says.
    pub fn highest(&self) -> u8
        ensures { result ≡ wire (self.now.acknowledged + length self.now.held) }
    {
        self.above_acknowledged(self.held.len())
    }

    // The number that lies this far above the highest acknowledged.
    fn above_acknowledged(&self, count: usize) -> u8
        requires { count ≤ 256 }
        ensures { result ≡ wire (self.now.acknowledged + count) }
    {
        Seq::<256>::of(u64::from(self.held.first().value()) + count as u64).value() as u8
    }

    // ---- packets

    /// Whether a packet is outstanding: given, and not acknowledged.
    pub fn is_outstanding(&self) -> bool
        ensures { result ≡ not (length self.now.held == 0) }
    {
        self.held.len() != 0
    }

    /// Whether fewer packets are outstanding than may be, which are 255: with 256 their numbers would be told apart no more.
    pub fn has_room(&self) -> bool
        ensures { result ≡ nat_lt (length self.now.held) WINDOW }
    {
        self.held.len() < usize::from(MOST)
    }

    /// Whether the next packet to send is new: all outstanding packets are sent in this go. Where it is not, it is one of them.
    pub fn is_new(&self) -> bool
        ensures new { result ≡ wire_is_new self.now }
        ensures held { result ≡ false → self.now.ahead < length self.now.held }
    {
        self.ahead == self.held.len()
    }

    /// The next packet to send, if it is outstanding and goes again; `None` where it is new.
    pub fn packet_to_send(&self) -> Option<&HeldPacket<T, B>>
        ensures { option_copied result ≡ slice_get self.now.held self.now.ahead }
    {
        self.held.item(self.ahead)
    }

    /// Whether the next packet to send was first sent with these bytes. Of a new one this is not so.
    pub fn is_first_given(&self, body: &[u8]) -> bool
        ensures { result ≡ is_held_packet (slice_get self.now.held self.now.ahead) body.now }
    {
        match self.held.item(self.ahead) {
            Some(packet) => body == packet.body().as_slice(),
            None => false,
        }
    }

    /// The label beside the next packet to send, if that goes again and has one.
    pub fn label_to_send(&self) -> Option<T>
        ensures { result ≡ option_and_then (λ (packet : wire_station.HeldPacket T). packet.label) (slice_get self.now.held self.now.ahead) }
    {
        match self.held.item(self.ahead) {
            Some(packet) => packet.label(),
            None => None,
        }
    }

    // ---- what comes

    /// Whether the packet of a message can be taken (DDCMP 4.1, data transfer): the message is data with NUM = R + 1, in RUNNING, or in ASTRT
    /// with RESP 0.
    #[inline(always)]
    pub fn can_take(&self, message: &Message) -> bool
        ensures { result ≡ (has_packet (row self.now.state (view message.now)).effects && wire_is_next self.now (fields.num_of (view message.now))) }
    {
        ArrivalRow::of(self.state, message).takes_packet() && self.is_next(num_of(message))
    }

    /// Whether a RESP that comes is among A to N: what a right other station answers in RUNNING, since it was acknowledged last, or given since.
    pub fn may_answer(&self, resp: u8) -> bool
        ensures { result ≡ nat_le (acknowledges self.now resp) (length self.now.held) }
    {
        usize::from(Seq::distance(self.held.first(), Seq::of(u64::from(resp)))) <= self.held.len()
    }

    // ---- what changes

    /// The user starts the station, which goes to ISTRT: nothing is received, given or acknowledged, and all packets are dropped. Takes no
    /// memory.
    pub fn start(&mut self)
        ensures { self.new ≡ no_numbers State.Istrt }
    {
        self.state = State::Istrt;
        self.received = Seq::of(0);
        self.ahead = 0;
        self.held.restart(Seq::of(0));
    }

    /// The station goes to this state, and its numbers stay.
    pub fn go_to(&mut self, state: State)
        ensures { self.new ≡ record self.old { state = state } }
    {
        self.state = state;
    }

    /// The next packet in order is received: R goes up by one.
    pub fn receive(&mut self)
        ensures { self.new ≡ record self.old { received = wire (self.old.received + 1) } }
    {
        self.received = self.received.next();
    }

    /// All packets through the number `resp` are acknowledged, where it lies above A and at most at N; otherwise nothing changes. T stays, or
    /// is the number after `resp` where that lies above it. Takes no memory.
    pub fn respond(&mut self, resp: u8)
        ensures { self.new ≡ wire_responded self.old resp }
    {
        let count = usize::from(Seq::distance(self.held.first(), Seq::of(u64::from(resp))));
        if count == 0 {
            return;
        }
        if count > self.held.len() {
            return;
        }
        self.held.release(count);
        self.ahead = self.ahead.saturating_sub(count);
    }

    /// All outstanding packets are to be sent again, the lowest number first: T is A + 1.
    pub fn set_back(&mut self)
        ensures { self.new ≡ record self.old { ahead = 0 } }
    {
        self.ahead = 0;
    }

    /// The next packet to send, which is outstanding, is sent again: T goes up by one.
    pub fn send_again(&mut self)
        requires { self.old.ahead < length self.old.held }
        ensures { self.new ≡ record self.old { ahead = self.old.ahead + 1 } }
    {
        self.ahead += 1;
    }

    /// A new packet is sent: it gets the next number, and N and T go up by one. `AllocError` where its memory is refused; then nothing changes.
    pub fn send_new(&mut self, packet: HeldPacket<T, B>) -> Result<(), AllocError>
        requires new { wire_is_new self.old ≡ true }
        requires room { length self.old.held < WINDOW }
        ensures ok { OnOk result (self.new ≡ record self.old { ahead = self.old.ahead + 1; held = self.old.held ++ packet ∷ [] }) }
        ensures err { OnErr result (self.new ≡ self.old) }
    {
        match self.held.push(packet) {
            Ok(()) => {
                self.ahead += 1;
                Ok(())
            }
            Err((_, PushFault::OutOfMemory)) => Err(AllocError),
            Err((_, PushFault::Full)) => unreachable!(),
        }
    }

    /// This label is put beside the newest packet, in the place of one that it had. A packet is outstanding. Takes no memory.
    pub fn label(&mut self, label: T)
        requires { 0 < length self.old.held }
        ensures { self.new ≡ record self.old { held = with_label self.old.held label } }
    {
        let newest = self.held.len() - 1;
        self.held.amend(newest, |packet| packet.put_label(label));
    }
}
