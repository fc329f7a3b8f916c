//! What the links send next, how it is put together, and what sending leaves.

ghost use Rattle.std.specs.Prelude.{◌≡◌, ◌<◌, ◌≤◌, None, Some, length, slice_get, OnOk, IfOk, IfSome};
ghost use Rattle.std.specs.Option.{option_map};
ghost use Rattle.dna_packet.specs.Nsp.{nsp_bytes};
ghost use Rattle.dna_packet.specs.Nsp as nsp;
ghost use Rattle.dna_play.specs.NextSent.{LinkEnd as StoredLink, first_duty, link_choice, duty_of};
ghost use Rattle.dna_play.specs.Compose.{link_message, message_at};
ghost use Rattle.player_end.specs.inner.Index.{live_ends};
ghost use Rattle.dna_play.specs.StoredLinks.{after_sent};
ghost use Rattle.dna_play.specs.StoredLinks as stored;
ghost use Rattle.player_end.specs.inner.Index.{AreMarked, LivesAt, among_live, live_of, place_among};
ghost use Rattle.player_end.specs.inner.Links.{duty_there};
ghost use Rattle.player_end.specs.inner.Owing.{link_choice_view, duty_view};

use super::LinkEnds;
use crate::choice::{EndConfirm, LinkChoice};
use crate::duty::Duty;
use crate::given_piece::GivenPiece;
use crate::link_end::LinkEnd;
use crate::marks::Marks;
use dna_packet::{DisconnectConfirm, Nsp, write_nsp};
use std::alloc::AllocError;
use wire_base::Window;

impl<V: Window<GivenPiece, 4096> + Drop> LinkEnds<V> {
    /// What they send next: the oldest DC; else what the first link has to send that has anything. It changes no link.
    pub fn choice(&mut self) -> Option<LinkChoice>
        ensures choice { option_map link_choice_view result ≡ link_choice self.old.confirms self.old.links }
        ensures live { link_choice self.old.confirms (live_ends self.old.links)
            ≡ option_map (among_live self.old.links) (link_choice self.old.confirms self.old.links) }
        ensures same { self.new ≡ self.old }
    {
        match self.confirms.front() {
            Some(confirm) => Some(LinkChoice::Confirms(confirm.get())),
            None => first_duty(&self.links, &mut self.marks),
        }
    }

    /// The bytes of the message of a choice, which is what they send next.
    pub fn message(&self, choice: LinkChoice) -> Result<Option<Vec<u8>>, AllocError>
        requires { link_choice self.now.confirms self.now.links ≡ Some (link_choice_view choice) }
        ensures message { IfOk result (λ message. option_map (λ bytes. bytes.items) message
            ≡ option_map nsp_bytes (link_message (among_live self.now.links (link_choice_view choice)) (live_ends self.now.links))) }
        ensures short { IfOk result (λ message. IfSome message (λ bytes. length bytes.items ≤ 1024)) }
    {
        let _ = &self.links;
        match choice {
            LinkChoice::Confirms(confirm) => {
                let bytes = self.confirm_message(confirm)?;
                Ok(Some(bytes))
            }
            LinkChoice::OfLink { number, duty } => self.message_of(number, duty),
        }
    }

    // The bytes of the message of a duty of the link with this number, if there is one.
    fn message_of(&self, number: usize, duty: Duty) -> Result<Option<Vec<u8>>, AllocError>
        ensures message { IfOk result (λ message. option_map (λ bytes. bytes.items) message
            ≡ option_map nsp_bytes (message_at (slice_get self.now.links number) (duty_view duty))) }
        ensures short { IfOk result (λ message. IfSome message (λ bytes. length bytes.items ≤ 1024)) }
    {
        match self.links.get(number) {
            Some(link) => {
                let bytes = link.message(self.alloc, duty)?;
                Ok(Some(bytes))
            }
            None => Ok(None),
        }
    }

    fn confirm_message(&self, confirm: EndConfirm) -> Result<Vec<u8>, AllocError>
        ensures bytes { IfOk result (λ bytes. bytes.items ≡ nsp_bytes (nsp.DisconnectConfirm confirm.dst confirm.src confirm.reason)) }
        ensures short { IfOk result (λ bytes. length bytes.items ≤ 1024) }
    {
        write_nsp(
            self.alloc,
            &Nsp::DisconnectConfirm(DisconnectConfirm {
                dstaddr: confirm.dst,
                srcaddr: confirm.src,
                reason: confirm.reason,
            }),
        )
    }

    /// The message of a choice, which is what they send next, was sent.
    pub fn sent(&mut self, choice: LinkChoice) -> Result<(), AllocError>
        requires { link_choice self.old.confirms self.old.links ≡ Some (link_choice_view choice) }
        ensures { OnOk result (live_of self.new ≡ after_sent (among_live self.old.links (link_choice_view choice)) (live_of self.old)) }
    {
        match choice {
            LinkChoice::Confirms(_) => {
                self.confirms.pop_front();
                Ok(())
            }
            LinkChoice::OfLink { number, duty } => {
                if number >= self.links.len() {
                    return Ok(());
                }
                self.sent_at(number, duty)
            }
        }
    }

    fn sent_at(&mut self, number: usize, duty: Duty) -> Result<(), AllocError>
        requires within { number < length self.old.links }
        requires lives { LivesAt number self.old }
        requires next { (link : StoredLink) → slice_get self.old.links number ≡ Some link → duty_of link ≡ Some (duty_view duty) }
        ensures { (link : StoredLink) → slice_get self.old.links number ≡ Some link → OnOk result (live_of self.new
            ≡ stored.changed (place_among number self.old.links) (stored.duty_sent (duty_view duty) link) (live_of self.old)) }
    {
        let made = self.links[number].sent(self.alloc, duty);
        self.marks.mark(number);
        made
    }
}

// What the first link has to send that has anything. Links that were found to have nothing are marked no more.
fn first_duty<V: Window<GivenPiece, 4096> + Drop>(
    links: &Vec<LinkEnd<V>>,
    marks: &mut Marks,
) -> Option<LinkChoice>
    requires marked { AreMarked links.now.items marks.old.marks.items }
    requires long { length marks.old.marks.items ≡ length links.now.items }
    ensures duty { option_map link_choice_view result ≡ first_duty 0 links.now.items }
    ensures marked { AreMarked links.now.items marks.new.marks.items }
    ensures long { length marks.new.marks.items ≡ length links.now.items }
{
    let mut from = 0;
    while from < links.len() {
        let Some(number) = marks.first() else {
            return None;
        };
        if let Some(duty) = duty_at(links, number) {
            return Some(LinkChoice::OfLink { number, duty });
        }
        marks.unmark(number);
        from = number + 1;
    }
    None
}

// What the link with this number has to send, if there is one.
fn duty_at<V: Window<GivenPiece, 4096> + Drop>(
    links: &Vec<LinkEnd<V>>,
    number: usize,
) -> Option<Duty>
    ensures { option_map duty_view result ≡ duty_there (slice_get links.now.items number) }
{
    match links.get(number) {
        Some(link) => link.duty(),
        None => None,
    }
}
