//! What one link of an end owes.

ghost use Rattle.std.specs.Prelude.{◌≡◌, ◌+◌, ◌-◌, ◌<◌, ◌^◌, true};
ghost use Rattle.dna_play.specs.LinkOwed.{lowered, nothing, sent_again, unless_left, with_duty};
ghost use Rattle.dna_play.specs.NextSent.{without_duty};
ghost use Rattle.player_end.specs.inner.Owing.{has_duty, duty_view};

use crate::duty::Duty;
use std::marker::Model;

/// What one link of an end owes, each thing once, and how many of its outstanding segments are sent in the present go. A contract sees it
/// as the record of both.
#[derive(Clone, Copy)]
pub struct LinkOwed {
    connect_ack: bool,
    initiate: bool,
    confirm: bool,
    disconnect: bool,
    data_ack: bool,
    // a CI was sent: the next one goes as a repeated one
    initiated: bool,
    ahead: usize,
}

impl Model for LinkOwed {
    ghost use Rattle.dna_play.specs.LinkOwed.{LinkOwed};

    ghost Value = { LinkOwed };

    ghost view = { λ o. record {
      connect_ack = o.connect_ack;
      initiate = o.initiate;
      confirm = o.confirm;
      disconnect = o.disconnect;
      data_ack = o.data_ack;
      initiated = o.initiated;
      ahead = o.ahead;
    } };

    ghost inverse = { λ o. record {
      connect_ack = o.connect_ack;
      initiate = o.initiate;
      confirm = o.confirm;
      disconnect = o.disconnect;
      data_ack = o.data_ack;
      initiated = o.initiated;
      ahead = o.ahead;
    } };
}

impl LinkOwed {
    /// Nothing.
    pub fn nothing() -> LinkOwed
        ensures { result ≡ nothing }
    {
        LinkOwed {
            connect_ack: false,
            initiate: false,
            confirm: false,
            disconnect: false,
            data_ack: false,
            initiated: false,
            ahead: 0,
        }
    }

    /// Whether a flag says that this is owed; segments are never owed by a flag.
    pub fn owes(&self, duty: Duty) -> bool
        ensures { result ≡ has_duty (duty_view duty) self.now }
    {
        match duty {
            Duty::ConnectAck => self.connect_ack,
            Duty::Initiate => self.initiate,
            Duty::Confirm => self.confirm,
            Duty::Disconnect => self.disconnect,
            Duty::DataAck => self.data_ack,
            Duty::Segment => false,
        }
    }

    /// Whether a CI was sent.
    pub fn initiated(&self) -> bool
        ensures { result ≡ self.now.initiated }
    {
        self.initiated
    }

    /// How many of the outstanding segments are sent in the present go.
    pub fn ahead(&self) -> usize
        ensures { result ≡ self.now.ahead }
    {
        self.ahead
    }

    /// This is owed.
    pub fn owe(&mut self, duty: Duty)
        ensures owed { self.new ≡ with_duty (duty_view duty) true self.old }
        ensures ahead { self.new.ahead ≡ self.old.ahead }
    {
        self.set(duty, true);
    }

    fn set(&mut self, duty: Duty, owes: bool)
        ensures { self.new ≡ with_duty (duty_view duty) owes self.old }
    {
        match duty {
            Duty::ConnectAck => self.connect_ack = owes,
            Duty::Initiate => self.initiate = owes,
            Duty::Confirm => self.confirm = owes,
            Duty::Disconnect => self.disconnect = owes,
            Duty::DataAck => self.data_ack = owes,
            Duty::Segment => {}
        }
    }

    /// This was sent.
    pub fn sent(&mut self, duty: Duty)
        requires { self.old.ahead < 2 ^ 63 }
        ensures { self.new ≡ without_duty (duty_view duty) self.old }
    {
        match duty {
            Duty::Initiate => {
                self.initiate = false;
                self.initiated = true;
            }
            Duty::Segment => self.ahead += 1,
            _ => self.set(duty, false),
        }
    }

    /// All outstanding segments go again.
    pub fn send_again(&mut self)
        ensures { self.new ≡ sent_again self.old }
    {
        self.ahead = 0;
    }

    /// After a record: a phase that was left drops what was owed.
    pub fn settle(&mut self, stays: bool)
        ensures { self.new ≡ unless_left stays self.old }
    {
        if !stays {
            *self = LinkOwed::nothing();
        }
    }

    /// After a record: so many segments are acknowledged, and no longer among those sent in this go.
    pub fn lower(&mut self, count: usize)
        ensures { self.new ≡ lowered count self.old }
    {
        self.ahead = self.ahead.saturating_sub(count);
    }
}
