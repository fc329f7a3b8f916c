//! What the user of the links does, and their timers.

ghost use Rattle.std.specs.Prelude.{◌≡◌, ◌<◌, true, false, None, Some, length, slice_get, OnOk};
ghost use Rattle.dna_links.specs.LookUps.{is_live};
ghost use Rattle.dna_play.specs.LinkOwed.{retried};
ghost use Rattle.dna_play.specs.NextSent.{LinkEnd as StoredLink};
ghost use Rattle.dna_play.specs.StoredLinks as stored;
ghost use Rattle.player_end.specs.inner.Index.{LivesAt, live_of, place_among};
ghost use Rattle.player_end.specs.inner.Links.{retried_end, changed_to};
ghost use Rattle.player_end.specs.inner.Owing.{duty_view};

use super::LinkEnds;
use crate::duty::Duty;
use crate::given_piece::GivenPiece;
use crate::link_end::LinkEnd;
use dna_links::Phase;
use std::alloc::AllocError;
use wire_base::Window;

impl<V: Window<GivenPiece, 4096> + Drop> LinkEnds<V> {
    /// A link is opened, with this own address.
    pub fn open(&mut self, own: u16) -> Result<(), AllocError>
        ensures { OnOk result (live_of self.new ≡ stored.begun (stored.opened own) (live_of self.old)) }
    {
        let link = LinkEnd::opened(self.alloc, own);
        self.begin(link)
    }

    /// The call of the link with this number is answered: it goes to this phase, gets this own address, and owes this. Where memory is refused,
    /// nothing changes.
    pub fn answer_at(
        &mut self,
        number: usize,
        phase: Phase,
        duty: Duty,
        own: u16,
    ) -> Result<(), AllocError>
        requires within { number < length self.old.links }
        requires lives { LivesAt number self.old }
        requires phase { is_live phase ≡ true }
        ensures { (link : StoredLink) → slice_get self.old.links number ≡ Some link
            → OnOk result (live_of self.new ≡ stored.changed (place_among number self.old.links) (stored.answered phase (duty_view duty) own link)
            (live_of self.old)) }
    {
        self.owns.insert(own, number)?;
        self.links[number].answer(phase, duty, own);
        self.marks.mark(number);
        Ok(())
    }

    /// A message is handed in to the link with this number.
    pub fn hand_in_at(&mut self, number: usize, message: &[u8]) -> Result<(), AllocError>
        requires within { number < length self.old.links }
        requires lives { LivesAt number self.old }
        ensures { (link : StoredLink) → slice_get self.old.links number ≡ Some link
            → OnOk result
            (live_of self.new ≡ stored.changed (place_among number self.old.links) (stored.handed message.now link) (live_of self.old)) }
    {
        let made = self.links[number].hand_in(self.alloc, message);
        self.marks.mark(number);
        made
    }

    /// The user closes the link with this number.
    pub fn close_at(&mut self, number: usize)
        requires within { number < length self.old.links }
        requires lives { LivesAt number self.old }
        ensures { (link : StoredLink) → slice_get self.old.links number ≡ Some link → live_of self.new ≡ stored.changed
            (place_among number self.old.links) (stored.closed link) (live_of self.old) }
    {
        self.links[number].close();
        self.marks.mark(number);
    }

    /// The timer of the link with this number runs out; the answer is whether it can.
    pub fn retry_at(&mut self, number: usize) -> bool
        requires within { number < length self.old.links }
        requires lives { LivesAt number self.old }
        ensures yes { (link : StoredLink) → slice_get self.old.links number ≡ Some link → result ≡ true
            → changed_to (place_among number self.old.links) (retried_end link) (live_of self.old) ≡ Some (live_of self.new) }
        ensures no { (link : StoredLink) → slice_get self.old.links number ≡ Some link → result ≡ false → retried link.port.phase ≡ None }
    {
        let made = self.links[number].retry();
        self.marks.mark(number);
        made
    }
}
