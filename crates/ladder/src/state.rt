//! The state of a side's station, as its records tell it.

ghost use Rattle.std.specs.Prelude.{◌≡◌, option_map};
ghost use Rattle.ddcmp_msg.specs.Message as unit;
ghost use Rattle.ladder.specs.State as spec;

use crate::said::Said;
use crate::told::What;
use capture_record::Entry;
use ddcmp_msg::{Flags, Message};
use dna_station::{ArrivalRow, State};

/// The state after a record.
pub fn after(state: State, what: What) -> State
    ensures { result ≡ spec.after state what }
{
    match what {
        What::User { entry, .. } => after_user(state, entry),
        What::Came { said, .. } => after_arrival(state, said),
        What::Sent { .. } | What::Noise { .. } | What::Composed { .. } => state,
    }
}

/// The state after what a user did, or got.
#[inline(always)]
pub fn after_user(state: State, entry: Entry) -> State
    ensures { result ≡ spec.after_user state entry }
{
    match entry {
        Entry::Start => State::Istrt,
        Entry::Halt | Entry::Boot => State::Halted,
        _ => state,
    }
}

/// The state after what came.
#[inline(always)]
pub fn after_arrival(state: State, said: Said) -> State
    ensures { result ≡ spec.after_arrival state said }
{
    match message_of(said) {
        Some(message) => ArrivalRow::of(state, &message).leads_to(state),
        None => state,
    }
}

// A message that says so, as far as the state goes by it; none of what shows damage.
#[inline(always)]
fn message_of<'a>(said: Said) -> Option<Message<'a>>
    ensures { option_map unit.view result ≡ spec.message_of said }
{
    let flags = Flags {
        quick_sync: false,
        select: false,
    };
    match said {
        Said::Data { num, resp, .. } => Some(Message::Data {
            flags,
            resp,
            num,
            body: &[],
        }),
        Said::Ack { resp } => Some(Message::Ack { flags, resp }),
        Said::Nak { reason, resp } => Some(Message::Nak {
            flags,
            reason,
            resp,
        }),
        Said::Rep { num } => Some(Message::Rep { flags, num }),
        Said::Strt => Some(Message::Strt { flags }),
        Said::Stack => Some(Message::Stack { flags }),
        Said::HeaderBad | Said::DataBad | Said::NoMessage => None,
    }
}

/// Its name.
pub fn name_of(state: State) -> &'static str {
    match state {
        State::Halted => "HALTED",
        State::Istrt => "ISTRT",
        State::Astrt => "ASTRT",
        State::Running => "RUNNING",
    }
}
