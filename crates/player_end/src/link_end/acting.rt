//! What comes for a link.

ghost use Rattle.std.specs.Prelude.{◌≡◌, ◌<◌, OnOk, OnErr};
ghost use Rattle.std.specs.List.{AllByRecursion};
ghost use Rattle.dna_packet.specs.AckWord.{IsAckWord};
ghost use Rattle.dna_packet.specs.Nsp.{segment_view};
ghost use Rattle.dna_links.specs.LookUps as tests;
ghost use Rattle.dna_links.specs.WireSegments.{segment_taken};
ghost use Rattle.dna_play.specs.StoredLinks as stored;
ghost use Rattle.player_end.specs.inner.Links.{acknowledged};

use super::LinkEnd;
use crate::duty::Duty;
use crate::given_piece::GivenPiece;
use dna_links::Phase;
use dna_packet::{AckWord, Segment};
use link_segments::{Piece, REACH, is_running};
use std::alloc::{AllocError, Global};
use wire_base::{Seq, Window};

impl<V: Window<GivenPiece, 4096> + Drop> LinkEnd<V> {
    /// A CI comes again: in Called it owes a connect acknowledgement, in Confirming CC.
    pub fn call_again(&mut self)
        ensures { self.new ≡ stored.called_again self.old.port.phase self.old }
    {
        match self.port.phase {
            Phase::Called => self.owed.owe(Duty::ConnectAck),
            Phase::Confirming => self.owed.owe(Duty::Confirm),
            Phase::Calling | Phase::Running | Phase::Disconnecting | Phase::Ended => {}
        }
    }

    /// A CC is acted on: it goes to RUN with this far address, and owes a data acknowledgement.
    pub fn confirm(&mut self, far: u16)
        ensures { self.new ≡ stored.confirmed far self.old }
    {
        self.go_to(Phase::Running);
        self.port.far = Some(far);
        self.owed.owe(Duty::DataAck);
    }

    /// A CC comes for it and is not acted on: in RUN it owes a data acknowledgement.
    pub fn confirm_again(&mut self)
        ensures { self.new ≡ stored.confirmed_again (tests.is_running self.old.port.phase) self.old }
    {
        if is_running(self.port.phase) {
            self.owed.owe(Duty::DataAck);
        }
    }

    /// Something comes that has no number which is read: it runs.
    pub fn act(&mut self)
        ensures { self.new ≡ stored.acted_on self.old.variables self.old }
    {
        self.go_to(Phase::Running);
    }

    /// Acknowledgement words come: it runs, and what they acknowledge is no longer among the segments sent in this go. Takes no memory.
    pub fn take_acks(&mut self, words: &[AckWord])
        requires { AllByRecursion IsAckWord words.now }
        ensures { self.new ≡ stored.took_acks words.now self.old }
    {
        self.acknowledge(words);
        self.go_to(Phase::Running);
    }

    // What the words acknowledge is no longer outstanding, nor among the segments sent in this go.
    #[tactic(auto, using(crate::proofs::Acknowledged::counted))]
    fn acknowledge(&mut self, words: &[AckWord])
        requires { AllByRecursion IsAckWord words.now }
        ensures { self.new ≡ acknowledged words.now self.old }
    {
        let before = self.outstanding.acknowledged();
        self.outstanding.acknowledge_all(words);
        let after = self.outstanding.acknowledged();
        let count = Seq::distance(before, after);
        self.owed.lower(usize::from(count));
    }

    /// A segment comes: it runs, takes the words, holds the piece if that is missing and at most 2,047 above the highest received without
    /// a gap, and owes a data acknowledgement. Where memory is refused, nothing changes.
    pub fn take_segment(&mut self, alloc: Global, segment: &Segment<'_>) -> Result<(), AllocError>
        requires acks { AllByRecursion IsAckWord segment.now.acks.items }
        requires number { segment.now.number < 4096 }
        ensures ok { OnOk result (self.new ≡ stored.took_segment (segment_view segment.now) self.old) }
        ensures err { OnErr result (self.new ≡ self.old) }
    {
        self.hold(alloc, segment)?;
        self.take_acks(segment.acks.as_slice());
        self.owe(Duty::DataAck);
        Ok(())
    }

    // The piece of a segment that came is held.
    #[tactic(auto, using(crate::proofs::Holding::holding))]
    fn hold(&mut self, alloc: Global, segment: &Segment<'_>) -> Result<(), AllocError>
        requires { segment.now.number < 4096 }
        ensures ok { OnOk result (self.new ≡ record self.old { variables = segment_taken (segment_view segment.now) self.old.variables }) }
        ensures err { OnErr result (self.new ≡ self.old) }
    {
        let highest = self.received.value();
        let above = Seq::distance(self.received, Seq::of(u64::from(segment.number)));
        if above == 0 {
            return Ok(());
        }
        if above > REACH {
            return Ok(());
        }
        let above = usize::from(above);
        if !self.pieces.is_missing(above) {
            return Ok(());
        }
        let piece = Piece::of(alloc, segment)?;
        let more = self.pieces.hold(above, piece)?;
        self.received = Seq::of(u64::from(highest) + more as u64);
        Ok(())
    }
}
