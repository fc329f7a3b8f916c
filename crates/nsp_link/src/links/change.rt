//! How one of the links changes in its place.

ghost use Rattle.std.specs.Prelude.{◌≡◌, ◌<◌, ◌≤◌, Some, true, length, slice_get, OnOk, OnErr, IfErr};
ghost use Rattle.std.specs.Prelude.{if◌then◌else◌, ℕ, suc, nat_eq};
ghost use Rattle.std.specs.HashMap as hashed;
ghost use Rattle.std.specs.List.{AllByRecursion};
ghost use Rattle.dna_packet.specs.AckWord.{IsAckWord};
ghost use Rattle.dna_packet.specs.Nsp.{segment_view};
ghost use Rattle.dna_links.specs.Queues.{drops, ends_by_message, goes_to, settled, shows};
ghost use Rattle.dna_links.specs.declared.queue.Queues.TheVariants.{With};
ghost use Rattle.dna_links.specs.Links.{LinkOf, changed, with_segments};
ghost use Rattle.dna_links.specs.LookUps.{is_calling, is_at, is_in};
ghost use Rattle.dna_links.specs.Segmentation.{piece_of};
ghost use Rattle.dna_links.specs.WireSegments.{WireSegments, wire_segments, hands_in, takes_acks, takes_segment};
ghost use Rattle.nsp_link.specs.Segments.{is_held};
ghost use Rattle.nsp_link.specs.inner.Index.{times};
ghost use Rattle.nsp_link.specs.Kinds.{queues_of};
ghost use Rattle.nsp_link.specs.inner.Acted.{HasPieces, without_pieces};
ghost use Rattle.nsp_link.specs.inner.Indexing.{CallsAt, KeepsAt, LivesAt, UsesAt};
ghost use Rattle.nsp_link.specs.inner.Permitted.{IsNextAt, gave, went_on};
ghost use Rattle.nsp_link.specs.inner.Rows.{confirmed, runs};

use super::Links;
use super::uses::{count_only_with, end_use};
use crate::index::Index;
use crate::last_sent::LastSent;
use crate::last_sent::late::LateSent;
use crate::phase::is_phase;
use crate::{LinkTag, Piece};
use dna_links::{Phase, Port, Said};
use dna_packet::{AckWord, Segment};
use std::alloc::AllocError;
use wire_base::Window;

impl<W: Window<Piece, 4096> + Drop> Links<W> {
    // The user closes the link with this number.
    pub(super) fn close_link<const QUEUES: u8>(&mut self, number: usize)
        requires within { number < length self.old.links }
        requires used { UsesAt (queues_of QUEUES) number self.old }
        requires kept { KeepsAt number self.old }
        ensures { (link : LinkOf WireSegments) → slice_get self.old.links number ≡ Some link
            → self.new ≡ changed number (goes_to wire_segments (queues_of QUEUES) Phase.Disconnecting link) self.old }
    {
        self.links[number].close::<QUEUES>(self.alloc);
    }

    // A message is handed in to the link with this number. Where memory is refused, nothing changes.
    pub(super) fn hand_in_at(&mut self, number: usize, message: &[u8]) -> Result<(), AllocError>
        requires within { number < length self.old.links }
        requires kept { KeepsAt number self.old }
        ensures ok { (link : LinkOf WireSegments) → slice_get self.old.links number ≡ Some link
            → OnOk result (self.new ≡ changed number (with_segments (hands_in message.now link.segments) link) self.old) }
        ensures err { OnErr result (self.new ≡ self.old) }
    {
        self.links[number].hand_in(self.alloc, message)
    }

    // So many pieces of whole messages are delivered on the link with this number.
    pub(super) fn deliver_at(&mut self, number: usize, pieces: usize)
        requires within { number < length self.old.links }
        requires some { 1 ≤ pieces }
        requires few { HasPieces pieces number self.old }
        ensures { (link : LinkOf WireSegments) → slice_get self.old.links number ≡ Some link
            → self.new ≡ changed number (with_segments (without_pieces pieces link.segments) link) self.old }
    {
        self.links[number].deliver(pieces);
    }

    // A new segment is sent on the link with this number. Where memory is refused, nothing changes.
    pub(super) fn give_at<const QUEUES: u8>(
        &mut self,
        number: usize,
        segment: &Segment,
        late: LateSent,
    ) -> Result<(), AllocError>
        requires within { number < length self.old.links }
        requires kept { KeepsAt number self.old }
        requires next { IsNextAt (Some (segment_view segment.now)) number self.old }
        ensures ok { (link : LinkOf WireSegments) → slice_get self.old.links number ≡ Some link
            → OnOk result (self.new ≡ changed number (gave (queues_of QUEUES) (piece_of (segment_view segment.now)) late link) self.old) }
        ensures err { OnErr result (self.new ≡ self.old) }
    {
        self.links[number].give::<QUEUES>(self.alloc, segment, late)
    }

    // Words are sent on the link with this number that leave this as the last acknowledgement.
    pub(super) fn go_on_at<const QUEUES: u8>(&mut self, number: usize, sent: LastSent)
        requires within { number < length self.old.links }
        requires kept { KeepsAt number self.old }
        ensures { (link : LinkOf WireSegments) → slice_get self.old.links number ≡ Some link
            → self.new ≡ changed number (went_on (queues_of QUEUES) sent link) self.old }
    {
        self.links[number].go_on::<QUEUES>(self.alloc, sent);
    }

    // With queues: a message shows that the link with this number has come so far in what it sends.
    pub(super) fn say_at(&mut self, number: usize, said: Said)
        requires within { number < length self.old.links }
        ensures { (link : LinkOf WireSegments) → slice_get self.old.links number ≡ Some link
            → self.new ≡ changed number (shows wire_segments said link) self.old }
    {
        self.links[number].say(self.alloc, said);
    }

    // With queues: a DC with the address of the link with this number is sent.
    pub(super) fn settle_at(&mut self, number: usize)
        requires within { number < length self.old.links }
        ensures { (link : LinkOf WireSegments) → slice_get self.old.links number ≡ Some link
            → self.new ≡ changed number (settled wire_segments link.queue.waits link) self.old }
    {
        let known = self.links[number].use_that_ends();
        self.links[number].settle(self.alloc);
        end_use(&mut self.index, known);
    }

    // A CC confirms the link with this number, which is in Calling.
    pub(super) fn confirm_at<const QUEUES: u8>(
        &mut self,
        number: usize,
        far: u16,
        segsize: u16,
        tag: LinkTag,
    )
        requires within { number < length self.old.links }
        requires calling { (link : LinkOf WireSegments) → slice_get self.old.links number ≡ Some link → is_calling link.port.phase ≡ true }
        ensures { (link : LinkOf WireSegments) → slice_get self.old.links number ≡ Some link
            → self.new ≡ changed number (confirmed (queues_of QUEUES) far segsize tag link) self.old }
    {
        let _port = self.links[number].port();
        self.links[number].confirm::<QUEUES>(far, segsize, tag);
        self.index.stop_waiting();
        self.index.reach(far);
    }

    // The link with this number runs.
    pub(super) fn run_at<const QUEUES: u8>(&mut self, number: usize)
        requires within { number < length self.old.links }
        requires live { LivesAt number self.old }
        ensures { (link : LinkOf WireSegments) → slice_get self.old.links number ≡ Some link
            → self.new ≡ changed number (runs (queues_of QUEUES) (λ segments. segments) link) self.old }
    {
        self.links[number].run::<QUEUES>();
    }

    // Acknowledgement words come on the link with this number, and it runs.
    pub(super) fn take_acks_at<const QUEUES: u8>(&mut self, number: usize, words: &[AckWord])
        requires within { number < length self.old.links }
        requires live { LivesAt number self.old }
        requires acks { AllByRecursion IsAckWord words.now }
        ensures { (link : LinkOf WireSegments) → slice_get self.old.links number ≡ Some link
            → self.new ≡ changed number (runs (queues_of QUEUES) (takes_acks words.now tt) link) self.old }
    {
        self.links[number].take_acks::<QUEUES>(words);
    }

    // A segment comes on the link with this number, and it runs. Where memory is refused, nothing changes.
    #[inline(always)]
    pub(super) fn take_segment_at<const QUEUES: u8>(
        &mut self,
        number: usize,
        segment: &Segment,
    ) -> Result<(), AllocError>
        requires within { number < length self.old.links }
        requires live { LivesAt number self.old }
        requires acks { AllByRecursion IsAckWord segment.now.acks.items }
        requires segnum { segment.now.number < 4096 }
        ensures ok { (link : LinkOf WireSegments) → slice_get self.old.links number ≡ Some link
            → OnOk result (self.new ≡ changed number
            (runs (queues_of QUEUES) (takes_segment (segment_view segment.now) tt) link) self.old) }
        ensures held { (link : LinkOf WireSegments) → slice_get self.old.links number ≡ Some link
            → IfErr result (λ e. is_held (segment_view segment.now) link.segments.variables ≡ true) }
        ensures err { OnErr result (self.new ≡ self.old) }
    {
        self.links[number].take_segment::<QUEUES>(self.alloc, segment)
    }

    // The link with this number is over, by what came.
    pub(super) fn end_at<const QUEUES: u8>(&mut self, number: usize)
        requires within { number < length self.old.links }
        requires live { LivesAt number self.old }
        ensures { (link : LinkOf WireSegments) → slice_get self.old.links number ≡ Some link
            → self.new ≡ changed number (ends_by_message wire_segments (queues_of QUEUES) link) self.old }
    {
        let port = self.links[number].port();
        self.links[number].end::<QUEUES>(self.alloc);
        forget(&mut self.index, port);
        count_only_with::<QUEUES>(&mut self.index);
    }

    // The link with this number is over, and nothing of it waits.
    pub(super) fn drop_at<const QUEUES: u8>(&mut self, number: usize)
        requires within { number < length self.old.links }
        requires live { LivesAt number self.old }
        ensures { (link : LinkOf WireSegments) → slice_get self.old.links number ≡ Some link
            → self.new ≡ changed number (drops wire_segments (queues_of QUEUES) link) self.old }
    {
        let port = self.links[number].port();
        let known = self.links[number].begins_use();
        self.links[number].drop::<QUEUES>(self.alloc);
        forget(&mut self.index, port);
        count_only_with::<QUEUES>(&mut self.index);
        end_use(&mut self.index, known);
    }

    // The call with this number is given up. With queues it may have ended.
    pub(super) fn give_up_at<const QUEUES: u8>(&mut self, number: usize)
        requires within { number < length self.old.links }
        requires calls { CallsAt (queues_of QUEUES) number self.old }
        ensures { (link : LinkOf WireSegments) → slice_get self.old.links number ≡ Some link
            → self.new ≡ changed number (drops wire_segments (queues_of QUEUES) link) self.old }
    {
        let port = self.links[number].port();
        if is_phase(Phase::Ended, port.phase) {
            if port.opened {
                self.give_up_ended(number);
                return;
            }
            self.settle_at(number);
            return;
        }
        self.drop_at::<QUEUES>(number);
    }

    // With queues: the call with this number, which was opened here and has ended, is given up.
    fn give_up_ended(&mut self, number: usize)
        requires within { number < length self.old.links }
        requires calls { CallsAt With number self.old }
        requires over { (link : LinkOf WireSegments) → slice_get self.old.links number ≡ Some link
            → (is_in Phase.Ended link.port.phase ≡ true) × (link.port.opened ≡ true) }
        ensures { (link : LinkOf WireSegments) → slice_get self.old.links number ≡ Some link
            → self.new ≡ changed number (drops wire_segments With link) self.old }
    {
        self.links[number].give_up();
    }
}

// A link with this port, which lived, is over.
fn forget(index: &mut Index, port: Port)
    requires waits { is_calling port.phase ≡ true → 0 < index.old.waiting }
    requires reaches { (far : ℕ) → port.far ≡ Some far → 0 < times (hashed.get nat_eq index.old.reached far) }
    ensures waiting { (if is_calling port.phase then suc index.new.waiting else index.new.waiting) ≡ index.old.waiting }
    ensures reached { (q : ℕ) → (if is_at port.far q then suc (times (hashed.get nat_eq index.new.reached q))
        else times (hashed.get nat_eq index.new.reached q)) ≡ times (hashed.get nat_eq index.old.reached q) }
    ensures holders { index.new.holders ≡ index.old.holders }
    ensures callers { index.new.callers ≡ index.old.callers }
    ensures in_use { index.new.in_use ≡ index.old.in_use }
    ensures counts { index.new.counts ≡ index.old.counts }
{
    if matches!(port.phase, Phase::Calling) {
        index.stop_waiting();
    }
    if let Some(far) = port.far {
        index.leave(far);
    }
}
