//! What a station owes.

ghost use Rattle.std.specs.Prelude.{◌≡◌, ◌&&◌, Some};
ghost use Rattle.std.specs.Option.{option_map};
ghost use Rattle.dna_play.specs.Owed.{nothing, unless_left, with_debt, with_nak};
ghost use Rattle.dna_play.specs.NextSent.{after_choice, lowest_nak};
ghost use Rattle.player_end.specs.inner.Owing.{choice_view, debt_view};

use crate::choice::Choice;
use crate::debt::Debt;
use ddcmp_msg::NakReason;
use std::marker::Model;

/// What a station owes, each thing once. A contract sees it as the record of the flags.
#[derive(Clone, Copy)]
pub struct Owed {
    strt: bool,
    stack: bool,
    ack: bool,
    rep: bool,
    // a NAK of each of these reasons
    header_check: bool,
    data_check: bool,
    rep_response: bool,
    no_buffer: bool,
}

impl Model for Owed {
    ghost use Rattle.dna_play.specs.Owed.{Owed};

    ghost Value = { Owed };

    ghost view = { λ o. record {
      strt = o.strt;
      stack = o.stack;
      ack = o.ack;
      rep = o.rep;
      header_check = o.header_check;
      data_check = o.data_check;
      rep_response = o.rep_response;
      no_buffer = o.no_buffer;
    } };

    ghost inverse = { λ o. record {
      strt = o.strt;
      stack = o.stack;
      ack = o.ack;
      rep = o.rep;
      header_check = o.header_check;
      data_check = o.data_check;
      rep_response = o.rep_response;
      no_buffer = o.no_buffer;
    } };
}

impl Owed {
    /// Nothing.
    pub fn nothing() -> Owed
        ensures { result ≡ nothing }
    {
        Owed {
            strt: false,
            stack: false,
            ack: false,
            rep: false,
            header_check: false,
            data_check: false,
            rep_response: false,
            no_buffer: false,
        }
    }

    /// STRT is owed.
    pub fn strt(&self) -> bool
        ensures { result ≡ self.now.strt }
    {
        self.strt
    }

    /// STACK is owed.
    pub fn stack(&self) -> bool
        ensures { result ≡ self.now.stack }
    {
        self.stack
    }

    /// ACK is owed.
    pub fn ack(&self) -> bool
        ensures { result ≡ self.now.ack }
    {
        self.ack
    }

    /// REP is owed.
    pub fn rep(&self) -> bool
        ensures { result ≡ self.now.rep }
    {
        self.rep
    }

    /// The lowest NAK that is owed.
    pub fn lowest_nak(&self) -> Option<Choice>
        ensures { option_map choice_view result ≡ lowest_nak self.now }
    {
        if self.header_check {
            return Some(Choice::Nak(NakReason::HeaderCheck));
        }
        if self.data_check {
            return Some(Choice::Nak(NakReason::DataCheck));
        }
        if self.rep_response {
            return Some(Choice::Nak(NakReason::RepResponse));
        }
        if self.no_buffer {
            return Some(Choice::Nak(NakReason::NoBuffer));
        }
        None
    }

    /// One more thing is owed.
    pub fn owe(&mut self, debt: Debt)
        ensures { self.new ≡ with_debt (Some (debt_view debt)) self.old }
    {
        match debt {
            Debt::Strt => self.strt = true,
            Debt::Stack => self.stack = true,
            Debt::Ack => self.ack = true,
            Debt::Rep => self.rep = true,
            Debt::Nak(reason) => self.set_nak(reason, true),
        }
    }

    // A NAK of this reason is owed from now on, or no more.
    fn set_nak(&mut self, reason: NakReason, owes: bool)
        ensures { self.new ≡ with_nak reason owes self.old }
    {
        match reason {
            NakReason::HeaderCheck => self.header_check = owes,
            NakReason::DataCheck => self.data_check = owes,
            NakReason::RepResponse => self.rep_response = owes,
            NakReason::NoBuffer => self.no_buffer = owes,
            _ => {}
        }
    }

    /// After a record: a state that was left drops what was owed, and no REP is owed where no packet is outstanding.
    pub fn settle(&mut self, stays: bool, outstanding: bool)
        ensures { self.new ≡ record (unless_left stays self.old) { rep = (unless_left stays self.old).rep && outstanding } }
    {
        if !stays {
            *self = Owed::nothing();
            return;
        }
        if !outstanding {
            self.rep = false;
        }
    }

    /// This was sent, and what it says is owed no more; a NAK and data say what an ACK says.
    pub fn sent(&mut self, choice: Choice)
        ensures { self.new ≡ after_choice (choice_view choice) self.old }
    {
        match choice {
            Choice::Strt => self.strt = false,
            Choice::Stack => self.stack = false,
            Choice::Nak(reason) => {
                self.ack = false;
                self.set_nak(reason, false);
            }
            Choice::Rep => self.rep = false,
            Choice::Again | Choice::New(_) | Choice::Ack => self.ack = false,
        }
    }
}
