//! What an arrival does to a station.

ghost use Rattle.std.specs.Prelude.{false, ◌≡◌, ◌+◌, ◌^◌, ◌<◌, ◌≤◌, ◌==◌, ◌&&◌, not, None, Some, if◌then◌else◌, fold, IfOk, OnOk, IfErr, OnErr};
ghost use Rattle.std.specs.Option.{option_copied};
ghost use Rattle.ddcmp_msg.specs.Message.{view};
ghost use Rattle.ddcmp_msg.specs.declared.nak_reason.NakReason.TheVariants as nak;
ghost use Rattle.dna_station.specs.ArrivalRows.{need_view, row_view};
ghost use Rattle.dna_station.specs.NakCauses.{with_cause};
ghost use Rattle.dna_station.specs.Table.{row};
ghost use Rattle.dna_station.specs.PeriodRule.{meets};
ghost use Rattle.dna_station.specs.PeriodRule as rules;
ghost use Rattle.dna_station.specs.Book.{damaged_by, has_packet, takes_by};
ghost use Rattle.dna_station.specs.Book as arriving;
ghost use Rattle.dna_station.specs.WireStation.{load};
ghost use Rattle.dna_station.specs.WireBook.{wire_arrival_refusal, wire_tag, wire_book, wire_is_next, with_next, wire_responded, wire_does};
ghost use Rattle.dna_station.specs.WireBook.{wire_after_arrival, wire_taken};
ghost use Rattle.ddcmp_station.specs.Arrival.{arrival_view};
ghost use Rattle.ddcmp_station.specs.Failed.{failed_arrival, failed_keep};
ghost use Rattle.ddcmp_station.specs.Told.{refusal_of_arrival, told_arrival};
ghost use Rattle.ddcmp_station.specs.Permit.{IsRow};
ghost use Rattle.ddcmp_station.specs.PeriodRules.{period_rule};

use super::{HeldPacket, Station};
use crate::{Arrival, ArrivalCheck, ArrivalPermit, FailedArrival};
use ddcmp_msg::{Message, NakReason};
use dna_station::{ArrivalRow, PeriodNeed, State, Tag, body_of, num_of, resp_of};
use wire_base::Window;

impl<T: Copy, W: Window<HeldPacket<T>, 256>> Station<T, W> {
    /// Whether this can come now, where the node kept its packet or did not (DDCMP 4.1, startup state table, data transfer). Nothing changes, and
    /// no memory is taken. The answer is a permit for [`Station::arrive`], or else the first check that the arrival does not pass, by its name
    /// ([`Station::tell_arrival`] tells more). In this order:
    ///
    /// - `Period`: a message that is acted on belongs to another pair of starts. Only where `OF_PAIR`, as a judge of two captures asks it:
    ///   `ask_arrival::<true>`. Who has one end alone knows no period of what comes, and `ask_arrival::<false>` takes any.
    /// - `Keep`: nothing is taken, and `kept` says that something was.
    #[inline(always)]
    pub fn ask_arrival<'a, const OF_PAIR: bool>(
        &self,
        arrival: Arrival<'a>,
        kept: bool,
    ) -> Result<ArrivalPermit<'a>, ArrivalCheck>
        ensures allowed { OnOk result (wire_arrival_refusal (period_rule OF_PAIR) self.now (arrival_view arrival.entry) kept ≡ None) }
        ensures row { IfOk result (λ permit. IsRow self.now (arrival_view arrival.entry) permit.row) }
        ensures taken { IfOk result (λ permit. option_copied permit.packet ≡ wire_taken self.now (arrival_view arrival.entry) kept) }
        ensures passes { OnOk result (failed_arrival (period_rule OF_PAIR) self.now (arrival_view arrival.entry) kept ≡ None) }
        ensures named { IfErr result (λ check. failed_arrival (period_rule OF_PAIR) self.now (arrival_view arrival.entry) kept
            ≡ Some (told_arrival self.now (arrival_view arrival.entry) check)) }
        ensures refused { IfErr result (λ check. wire_arrival_refusal (period_rule OF_PAIR) self.now (arrival_view arrival.entry) kept
            ≡ Some (refusal_of_arrival check)) }
    {
        match arrival {
            Arrival::Sound(message, tag) => self.ask_sound::<OF_PAIR>(message, tag, kept),
            Arrival::HeaderBad => ask_damage(kept),
            Arrival::DataBad => ask_damage(kept),
        }
    }

    // A sound message that comes.
    #[inline(always)]
    fn ask_sound<'a, const OF_PAIR: bool>(
        &self,
        message: Message<'a>,
        tag: Tag,
        kept: bool,
    ) -> Result<ArrivalPermit<'a>, ArrivalCheck>
        ensures allowed { OnOk result (wire_arrival_refusal (period_rule OF_PAIR) self.now (arriving.Sound (view message.entry) tag) kept ≡ None) }
        ensures row { IfOk result (λ permit. row_view permit.row ≡ row self.now.variables.state (view message.entry)) }
        ensures taken { IfOk result (λ permit. option_copied permit.packet ≡ wire_taken self.now (arriving.Sound (view message.entry) tag) kept) }
        ensures passes { OnOk result (failed_arrival (period_rule OF_PAIR) self.now (arriving.Sound (view message.entry) tag) kept ≡ None) }
        ensures named { IfErr result (λ check. failed_arrival (period_rule OF_PAIR) self.now (arriving.Sound (view message.entry) tag) kept
            ≡ Some (told_arrival self.now (arriving.Sound (view message.entry) tag) check)) }
        ensures refused { IfErr result (λ check. wire_arrival_refusal (period_rule OF_PAIR) self.now (arriving.Sound (view message.entry) tag) kept
            ≡ Some (refusal_of_arrival check)) }
    {
        let row = ArrivalRow::of(self.variables.state(), &message);
        if OF_PAIR {
            if !self.meets(row.needs(), tag) {
                return Err(ArrivalCheck::Period);
            }
        }
        if !kept {
            return Ok(ArrivalPermit { row, packet: None });
        }
        if !self.takes(row, &message) {
            return Err(ArrivalCheck::Keep);
        }
        Ok(ArrivalPermit {
            row,
            packet: Some(body_of(&message)),
        })
    }

    // Whether the periods of a message with this tag are what is needed.
    #[inline(always)]
    fn meets(&self, needs: PeriodNeed, tag: Tag) -> bool
        ensures { result ≡ meets (need_view needs) (wire_tag self.now) tag }
    {
        match needs {
            PeriodNeed::Anything => true,
            PeriodNeed::Fresh => is_period(tag.partner, self.period),
            PeriodNeed::OfPair => {
                let fresh = is_period(tag.partner, self.period);
                is_period(self.partner, tag.period) && fresh
            }
        }
    }

    // Whether the packet of a message with this row can be taken.
    #[inline(always)]
    fn takes(&self, row: ArrivalRow, message: &Message) -> bool
        ensures { result ≡ (has_packet (row_view row).effects && wire_is_next self.now.variables (arriving.num_of (view message.now))) }
    {
        if row.takes_packet() {
            return self.variables.is_next(num_of(message));
        }
        false
    }

    /// This came, for which the station gave a permit with this row, and the node kept its packet or did not. The counts that the station keeps are
    /// together below 2^63. Takes no memory.
    ///
    /// What it does; where the table has nothing, and in HALTED, nothing:
    ///
    /// ```text
    ///          ISTRT         ASTRT                       RUNNING
    ///  STRT    to ASTRT      another partner             to HALTED
    ///  STACK   to RUNNING    to RUNNING
    ///  ACK                   with RESP 0: to RUNNING     RESP acknowledges
    ///  NAK                                               RESP acknowledges; the oldest left is next to send
    ///  REP                                               NUM is not the last received: a cause
    ///  data                  with RESP 0: to RUNNING,    RESP acknowledges; the next packet is taken,
    ///                        and then as there           or gives a cause where no buffer is left
    ///  damage                                            a cause
    /// ```
    #[inline(always)]
    pub fn arrive(&mut self, arrival: Arrival, row: ArrivalRow, kept: bool)
        requires load { load self.old < 2 ^ 63 }
        requires row { IsRow self.old (arrival_view arrival) row }
        ensures step { self.new ≡ wire_after_arrival self.old (arrival_view arrival.entry) kept }
        ensures load { load self.new ≤ load self.old + 1 }
    {
        match arrival {
            Arrival::Sound(message, tag) => self.take_step(row, &message, tag, kept),
            Arrival::HeaderBad => self.note_damage(NakReason::HeaderCheck),
            Arrival::DataBad => self.note_damage(NakReason::DataCheck),
        }
    }

    /// The same as [`Station::arrive`], as a call of its own: beside the work that a kept packet makes it costs nothing, and it keeps its caller
    /// small.
    #[inline(never)]
    pub fn arrive_apart(&mut self, arrival: Arrival, row: ArrivalRow, kept: bool)
        requires load { load self.old < 2 ^ 63 }
        requires row { IsRow self.old (arrival_view arrival) row }
        ensures step { self.new ≡ wire_after_arrival self.old (arrival_view arrival.entry) kept }
        ensures load { load self.new ≤ load self.old + 1 }
    {
        self.arrive(arrival, row, kept);
    }

    // ---- what it does

    // The effects of a sound message, by its row.
    #[inline(always)]
    fn take_step(&mut self, row: ArrivalRow, message: &Message, tag: Tag, kept: bool)
        requires { load self.old < 2 ^ 63 }
        ensures load { load self.new ≤ load self.old + 1 }
        ensures step { self.new ≡ fold (wire_does (view message.now) tag kept) self.old (row_view row).effects }
    {
        match row {
            ArrivalRow::Ignored => {}
            ArrivalRow::StartMet => self.join(tag.period, State::Astrt),
            ArrivalRow::StartAnswered => self.join(tag.period, State::Running),
            ArrivalRow::StartAgain => self.partner = Some(tag.period),
            ArrivalRow::StartConfirmed => self.variables.go_to(State::Running),
            ArrivalRow::FirstData => {
                self.variables.go_to(State::Running);
                self.receive_data(message, kept);
            }
            ArrivalRow::Restarted => self.variables.go_to(State::Halted),
            ArrivalRow::Noted => {}
            ArrivalRow::Acknowledged => self.variables.respond(resp_of(message)),
            ArrivalRow::SetBack => {
                self.variables.respond(resp_of(message));
                self.variables.set_back();
            }
            ArrivalRow::Asked => self.answer_rep(num_of(message)),
            ArrivalRow::Delivered => self.receive_data(message, kept),
        }
    }

    // The partner is this period, and the start goes on to this state.
    fn join(&mut self, partner: u64, state: State)
        ensures { self.new ≡ record self.old {
          variables = record self.old.variables { state = state };
          partner = Some partner;
        } }
    {
        self.partner = Some(partner);
        self.variables.go_to(state);
    }

    // A REP of another number than the last received is a cause.
    fn answer_rep(&mut self, num: u8)
        requires { load self.old < 2 ^ 63 }
        ensures load { load self.new ≤ load self.old + 1 }
        ensures step { self.new ≡ record self.old {
          causes = if num == self.old.variables.received then self.old.causes else with_cause nak.RepResponse self.old.causes;
        } }
    {
        if num != self.variables.received() {
            self.causes.add(NakReason::RepResponse);
        }
    }

    // Data in RUNNING: its RESP, and then its packet.
    #[inline(always)]
    fn receive_data(&mut self, message: &Message, kept: bool)
        requires { load self.old < 2 ^ 63 }
        ensures load { load self.new ≤ load self.old + 1 }
        ensures step { self.new ≡ record self.old {
          variables = with_next (wire_is_next (wire_responded self.old.variables (arriving.resp_of (view message.now)))
              (arriving.num_of (view message.now)) && kept) (wire_responded self.old.variables (arriving.resp_of (view message.now)));
          causes = if (wire_is_next (wire_responded self.old.variables (arriving.resp_of (view message.now)))
              (arriving.num_of (view message.now)) && not kept) then with_cause nak.NoBuffer self.old.causes else self.old.causes;
        } }
    {
        self.variables.respond(resp_of(message));
        if !self.variables.is_next(num_of(message)) {
            return;
        }
        if kept {
            self.variables.receive();
        } else {
            self.causes.add(NakReason::NoBuffer);
        }
    }

    // A unit that shows damage came: in RUNNING it gives a cause of this reason.
    fn note_damage(&mut self, reason: NakReason)
        requires { load self.old < 2 ^ 63 }
        ensures step { self.new ≡ damaged_by wire_book reason self.old }
        ensures load { load self.new ≤ load self.old + 1 }
    {
        if let State::Running = self.variables.state() {
            self.causes.add(reason);
        }
    }
}

// A unit, or noise, that shows damage: nothing of it is kept.
#[inline(always)]
fn ask_damage<'a>(kept: bool) -> Result<ArrivalPermit<'a>, ArrivalCheck>
    ensures allowed { OnOk result (arriving.keep_refusal false kept ≡ None) }
    ensures permit { IfOk result (λ permit. option_copied permit.packet ≡ None) }
    ensures passes { OnOk result (failed_keep false kept ≡ None) }
    ensures keep { IfErr result (λ check. check ≡ ArrivalCheck.Keep) }
    ensures named { OnErr result (failed_keep false kept ≡ Some FailedArrival.Keep) }
    ensures refused { OnErr result (arriving.keep_refusal false kept ≡ Some (refusal_of_arrival ArrivalCheck.Keep)) }
{
    if kept {
        return Err(ArrivalCheck::Keep);
    }
    Ok(ArrivalPermit {
        row: ArrivalRow::Ignored,
        packet: None,
    })
}

// The period is known, and it is this one.
fn is_period(known: Option<u64>, period: u64) -> bool
    ensures { result ≡ rules.is_period known period }
{
    match known {
        Some(known) => known == period,
        None => false,
    }
}
