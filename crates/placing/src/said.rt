//! What a unit says, as far as a station goes by it.

ghost use Rattle.std.specs.Prelude.{◌≡◌, option_map};
ghost use Rattle.ddcmp_msg.specs.Message.{view};
ghost use Rattle.ddcmp_msg.specs.Reading.{reading};
ghost use Rattle.placing.specs.inner.Says.{bare_in, message_of, resp_in, with_resp};

use ddcmp_msg::{Flags, Message, NakReason, Reading, read_unit};

/// What a unit says without its packet (DDCMP 4.1, message formats).
#[derive(Clone, Copy, Debug, PartialEq, Eq)]
pub(crate) enum Said {
    Strt,
    Stack,
    Ack { resp: u8 },
    Nak { reason: NakReason, resp: u8 },
    Rep { num: u8 },
    Data { resp: u8, num: u8 },
    /// It is no message, or is damaged.
    Nothing,
}

impl Said {
    /// What this unit says. Takes no memory.
    pub(crate) fn of(unit: &[u8]) -> Said
        ensures { message_of result ≡ bare_in (reading unit.now) }
    {
        match read_unit(unit) {
            Reading::Sound(message) => match message {
                Message::Strt { flags: _ } => Said::Strt,
                Message::Stack { flags: _ } => Said::Stack,
                Message::Ack { flags: _, resp } => Said::Ack { resp },
                Message::Nak {
                    flags: _,
                    reason,
                    resp,
                } => Said::Nak { reason, resp },
                Message::Rep { flags: _, num } => Said::Rep { num },
                Message::Data {
                    flags: _,
                    resp,
                    num,
                    body: _,
                } => Said::Data { resp, num },
            },
            Reading::HeaderBad | Reading::DataBad | Reading::Malformed(_) => Said::Nothing,
        }
    }

    /// A message that says the same, as far as a station goes by it.
    pub(crate) fn message<'a>(self) -> Option<Message<'a>>
        ensures { option_map view result ≡ message_of self }
    {
        let flags = Flags::from_byte(0);
        match self {
            Said::Strt => Some(Message::Strt { flags }),
            Said::Stack => Some(Message::Stack { flags }),
            Said::Ack { resp } => Some(Message::Ack { flags, resp }),
            Said::Nak { reason, resp } => Some(Message::Nak {
                flags,
                reason,
                resp,
            }),
            Said::Rep { num } => Some(Message::Rep { flags, num }),
            Said::Data { resp, num } => Some(Message::Data {
                flags,
                resp,
                num,
                body: &[],
            }),
            Said::Nothing => None,
        }
    }

    /// The response that it carries, if it carries one.
    pub(crate) fn resp(self) -> Option<u8>
        ensures { result ≡ resp_in self }
    {
        match self {
            Said::Ack { resp } | Said::Nak { reason: _, resp } | Said::Data { resp, num: _ } => {
                Some(resp)
            }
            Said::Strt | Said::Stack | Said::Rep { num: _ } | Said::Nothing => None,
        }
    }

    /// The same with this response in the place of its own, if it carries one.
    pub(crate) fn with_resp(self, resp: u8) -> Said
        ensures { result ≡ with_resp self resp }
    {
        match self {
            Said::Ack { resp: _ } => Said::Ack { resp },
            Said::Nak { reason, resp: _ } => Said::Nak { reason, resp },
            Said::Data { resp: _, num } => Said::Data { resp, num },
            Said::Strt | Said::Stack | Said::Rep { num: _ } | Said::Nothing => self,
        }
    }

    /// Whether it tells that no buffer was left.
    pub(crate) fn is_of_no_buffer(self) -> bool {
        match self {
            Said::Nak { reason, resp: _ } => reason == NakReason::NoBuffer,
            _ => false,
        }
    }

    /// Whether it is a STRT.
    pub(crate) fn is_strt(self) -> bool {
        match self {
            Said::Strt => true,
            _ => false,
        }
    }
}
