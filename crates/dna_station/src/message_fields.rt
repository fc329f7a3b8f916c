//! The fields of a message, as the rows of the tables name them.

ghost use Rattle.std.specs.Prelude.{◌≡◌};
ghost use Rattle.ddcmp_msg.specs.Message.{view};
ghost use Rattle.dna_station.specs.Book as fields;

use ddcmp_msg::Message;

/// RESP of a message, and 0 where it has none.
#[inline(always)]
pub fn resp_of(message: &Message) -> u8
    ensures { result ≡ fields.resp_of (view message.now) }
{
    match message {
        Message::Data { resp, .. } => *resp,
        Message::Ack { resp, .. } => *resp,
        Message::Nak { resp, .. } => *resp,
        Message::Rep { .. } | Message::Strt { .. } | Message::Stack { .. } => 0,
    }
}

/// NUM of a message, and 0 where it has none.
#[inline(always)]
pub fn num_of(message: &Message) -> u8
    ensures { result ≡ fields.num_of (view message.now) }
{
    match message {
        Message::Data { num, .. } => *num,
        Message::Rep { num, .. } => *num,
        Message::Ack { .. } | Message::Nak { .. } | Message::Strt { .. } | Message::Stack { .. } =>
            0,
    }
}

/// The data of a message, and none where it has none.
#[inline(always)]
pub fn body_of<'a>(message: &Message<'a>) -> &'a [u8]
    ensures { result.now ≡ fields.body_of (view message.now) }
{
    match message {
        Message::Data { body, .. } => body,
        _ => &[],
    }
}
