//! What a link sends next, how it is put together, and what sending leaves.

ghost use Rattle.std.specs.Prelude.{◌≡◌, ◌<◌, ◌≤◌, true, length, slice_get, OnOk, OnErr, IfOk};
ghost use Rattle.std.specs.Option.{option_map};
ghost use Rattle.dna_packet.specs.Nsp.{nsp_bytes};
ghost use Rattle.dna_play.specs.NextSent.{has_segment, duty_of};
ghost use Rattle.dna_play.specs.Compose.{address, piece_to_send, duty_message};
ghost use Rattle.dna_play.specs.StoredLinks as stored;
ghost use Rattle.player_end.specs.inner.Owing.{duty_view};
ghost use Rattle.link_segments.specs.Piece.{slice_view};

use super::LinkEnd;
use crate::duty::Duty;
use crate::given_piece::GivenPiece;
use arrayvec::ArrayVec;
use dna_packet::{
    AckQualifier, AckWord, ConnectAck, ConnectConfirm, ConnectInitiate, DataAck,
    DisconnectInitiate, Nsp, Segment, write_nsp,
};
use link_segments::{PieceSlice, REACH, is_running};
use std::alloc::{AllocError, Global};
use wire_base::{Seq, Window};

// SERVICES of CI and CC.
const SERVICES: u8 = 1;

// INFO of both.
const INFO: u8 = 2;

// SEGSIZE of both: the most data bytes that a segment has.
const SEGSIZE: u16 = 512;

// The user data of CC and DI.
const USER_DATA: [u8; 1] = [0];

impl<V: Window<GivenPiece, 4096> + Drop> LinkEnd<V> {
    /// What it has to send: the first of connect ack, CI, CC, DI, data ack and a segment.
    pub fn duty(&self) -> Option<Duty>
        ensures { option_map duty_view result ≡ duty_of self.now }
    {
        if self.owed.owes(Duty::ConnectAck) {
            return Some(Duty::ConnectAck);
        }
        if self.owed.owes(Duty::Initiate) {
            return Some(Duty::Initiate);
        }
        if self.owed.owes(Duty::Confirm) {
            return Some(Duty::Confirm);
        }
        if self.owed.owes(Duty::Disconnect) {
            return Some(Duty::Disconnect);
        }
        if self.owed.owes(Duty::DataAck) {
            return Some(Duty::DataAck);
        }
        if self.has_segment() {
            return Some(Duty::Segment);
        }
        None
    }

    // A segment is to be sent, in RUN alone: one that is outstanding, or a new one.
    fn has_segment(&self) -> bool
        ensures { result ≡ has_segment self.now }
    {
        if !is_running(self.port.phase) {
            return false;
        }
        if self.owed.ahead() < self.outstanding.len() {
            return true;
        }
        if self.outstanding.len() >= usize::from(REACH) {
            return false;
        }
        self.unsent.has_more()
    }

    // The piece that goes next: one that is outstanding, as it was given, or the next one.
    fn piece(&self) -> PieceSlice<'_>
        ensures piece { slice_view result ≡ piece_to_send (slice_get self.now.variables.outstanding self.now.owed.ahead) self.now.variables.unsent }
        ensures short { length result.body.now ≤ 512 }
    {
        match self.outstanding.segment(self.owed.ahead()) {
            Some(again) => again.as_slice(),
            None => self.unsent.next(),
        }
    }

    // The own and the far address, and 0 for one that is not known.
    fn own(&self) -> u16
        ensures { result ≡ address self.now.port.own }
    {
        match self.port.own {
            Some(own) => own,
            None => 0,
        }
    }

    fn far(&self) -> u16
        ensures { result ≡ address self.now.port.far }
    {
        match self.port.far {
            Some(far) => far,
            None => 0,
        }
    }

    /// The bytes of its message of this kind. `AllocError` where there is no memory for them.
    pub fn message(&self, alloc: Global, duty: Duty) -> Result<Vec<u8>, AllocError>
        ensures bytes { IfOk result (λ bytes. bytes.items ≡ nsp_bytes (duty_message (duty_view duty) self.now)) }
        ensures short { IfOk result (λ bytes. length bytes.items ≤ 1024) }
    {
        match duty {
            Duty::ConnectAck => {
                write_nsp(
                    alloc,
                    &Nsp::ConnectAck(ConnectAck {
                        dstaddr: self.far(),
                    }),
                )
            }
            Duty::Initiate => {
                write_nsp(
                    alloc,
                    &Nsp::ConnectInitiate(ConnectInitiate {
                        retransmitted: self.owed.initiated(),
                        srcaddr: self.own(),
                        services: SERVICES,
                        info: INFO,
                        segsize: SEGSIZE,
                        user_data: &[],
                    }),
                )
            }
            Duty::Confirm => {
                write_nsp(
                    alloc,
                    &Nsp::ConnectConfirm(ConnectConfirm {
                        dstaddr: self.far(),
                        srcaddr: self.own(),
                        services: SERVICES,
                        info: INFO,
                        segsize: SEGSIZE,
                        user_data: &USER_DATA,
                    }),
                )
            }
            Duty::Disconnect => {
                write_nsp(
                    alloc,
                    &Nsp::DisconnectInitiate(DisconnectInitiate {
                        dstaddr: self.far(),
                        srcaddr: self.own(),
                        reason: 0,
                        user_data: &USER_DATA,
                    }),
                )
            }
            Duty::DataAck => self.data_ack(alloc),
            Duty::Segment => self.segment(alloc),
        }
    }

    fn data_ack(&self, alloc: Global) -> Result<Vec<u8>, AllocError>
        ensures bytes { IfOk result (λ bytes. bytes.items ≡ nsp_bytes (duty_message (duty_view Duty.DataAck) self.now)) }
        ensures short { IfOk result (λ bytes. length bytes.items ≤ 1024) }
    {
        let mut acks = ArrayVec::new();
        acks.push(AckWord {
            qualifier: AckQualifier::Ack,
            number: self.received.value(),
        });
        write_nsp(
            alloc,
            &Nsp::DataAck(DataAck {
                dstaddr: self.far(),
                srcaddr: self.own(),
                acks,
            }),
        )
    }

    fn segment(&self, alloc: Global) -> Result<Vec<u8>, AllocError>
        ensures bytes { IfOk result (λ bytes. bytes.items ≡ nsp_bytes (duty_message (duty_view Duty.Segment) self.now)) }
        ensures short { IfOk result (λ bytes. length bytes.items ≤ 1024) }
    {
        let piece = self.piece();
        let above = 1 + self.owed.ahead() as u64;
        let number = Seq::<4096>::of(
            u64::from(self.outstanding.acknowledged().value()) + above,
        ).value();
        write_nsp(
            alloc,
            &Nsp::DataSegment(Segment {
                begins: piece.begins,
                ends: piece.ends,
                dstaddr: self.far(),
                srcaddr: self.own(),
                acks: ArrayVec::new(),
                number,
                bit_12: false,
                body: piece.body,
            }),
        )
    }

    /// Its message of this kind, which it sends next, was sent. A segment that was not given yet gets the next number; where its memory
    /// is refused, nothing changes.
    #[tactic(auto, using(crate::proofs::Choosing::segments))]
    pub fn sent(&mut self, alloc: Global, duty: Duty) -> Result<(), AllocError>
        requires { duty_of self.old ≡ Some (duty_view duty) }
        ensures ok { OnOk result (self.new ≡ stored.duty_sent (duty_view duty) self.old) }
        ensures err { OnErr result (self.new ≡ self.old) }
    {
        self.give_by(alloc, duty)?;
        self.owed.sent(duty);
        Ok(())
    }

    #[tactic(auto, using(crate::proofs::Choosing::segments))]
    fn give_by(&mut self, alloc: Global, duty: Duty) -> Result<(), AllocError>
        requires { duty_of self.old ≡ Some (duty_view duty) }
        ensures given { OnOk result (self.new ≡ stored.gave_by (duty_view duty) self.old) }
        ensures next { duty ≡ Duty.Segment → OnOk result (self.new.owed.ahead < length self.new.variables.outstanding) }
        ensures err { OnErr result (self.new ≡ self.old) }
    {
        match duty {
            Duty::Segment => self.give(alloc),
            Duty::ConnectAck => Ok(()),
            Duty::Initiate => Ok(()),
            Duty::Confirm => Ok(()),
            Duty::Disconnect => Ok(()),
            Duty::DataAck => Ok(()),
        }
    }

    // A segment that is not sent again is the next piece, which gets the next number.
    #[tactic(auto, using(crate::proofs::Choosing::segments))]
    fn give(&mut self, alloc: Global) -> Result<(), AllocError>
        requires { has_segment self.old ≡ true }
        ensures given { OnOk result (self.new ≡ stored.gave (slice_get self.old.variables.outstanding self.old.owed.ahead) self.old) }
        ensures next { OnOk result (self.new.owed.ahead < length self.new.variables.outstanding) }
        ensures err { OnErr result (self.new ≡ self.old) }
    {
        if self.owed.ahead() < self.outstanding.len() {
            return Ok(());
        }
        let piece = GivenPiece::copied(alloc, self.unsent.next())?;
        self.outstanding.give(alloc, piece)?;
        self.unsent.give_next();
        Ok(())
    }
}
