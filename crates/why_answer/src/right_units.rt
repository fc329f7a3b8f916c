//! The units that would be right where a unit is refused, each with one field of it changed.

use ddcmp_msg::{Flags, Message, NakReason, Reading, read_unit, write_unit};
use ddcmp_station::{FailedSending, OpenCauses, State, StationView};
use pair_judge::FailedCheck;
use std::alloc::{AllocError, Global};

/// The units that would be right in the place of these bytes, which were sent and do not pass this check of their station: with the RESP or the
/// NUM that it asks for, with another reason of a NAK, or of the kind that it allows there. None where one field is not enough. `AllocError` where
/// there is no memory for them.
pub fn right_units(
    alloc: Global,
    failed: FailedCheck,
    station: StationView,
    bytes: &[u8],
) -> Result<Vec<Vec<u8>>, AllocError> {
    let mut units = Vec::new(alloc);
    if let (FailedCheck::StationSending(failed), Reading::Sound(message)) = (
        failed,
        read_unit(bytes),
    ) {
        add_right(alloc, &mut units, failed, station, message)?;
    }
    Ok(units)
}

fn add_right(
    alloc: Global,
    units: &mut Vec<Vec<u8>>,
    failed: FailedSending,
    station: StationView,
    message: Message<'_>,
) -> Result<(), AllocError> {
    let answer = Message::Ack {
        flags: flags_of(message),
        resp: station.received,
    };
    match failed {
        FailedSending::State { seen } => add_of_state(alloc, units, seen, answer),
        FailedSending::RespIsLast { allowed, .. } => {
            add(alloc, units, with_resp(message, allowed))
        }
        FailedSending::NumIsNext { allowed, .. } | FailedSending::NumIsHighest { allowed, .. } => {
            add(alloc, units, with_num(message, allowed))
        }
        FailedSending::SomeOutstanding => add(alloc, units, answer),
        FailedSending::CauseIsOpen { open_causes, .. } => {
            add_naks(alloc, units, open_causes, message)?;
            add(alloc, units, answer)
        }
        FailedSending::RoomIfNew { .. } | FailedSending::AsFirstGiven { .. } => Ok(()),
    }
}

// What a station in this state may send.
fn add_of_state(
    alloc: Global,
    units: &mut Vec<Vec<u8>>,
    state: State,
    answer: Message<'_>,
) -> Result<(), AllocError> {
    let flags = flags_of(answer);
    match state {
        State::Halted => Ok(()),
        State::Istrt => add(alloc, units, Message::Strt { flags }),
        State::Astrt => add(alloc, units, Message::Stack { flags }),
        State::Running => add(alloc, units, answer),
    }
}

// The same NAK with each reason of which a cause is open.
fn add_naks(
    alloc: Global,
    units: &mut Vec<Vec<u8>>,
    open: OpenCauses,
    message: Message<'_>,
) -> Result<(), AllocError> {
    let counts = [
        (NakReason::HeaderCheck, open.header_check),
        (NakReason::DataCheck, open.data_check),
        (NakReason::RepResponse, open.rep_response),
        (NakReason::NoBuffer, open.no_buffer),
    ];
    for (reason, count) in counts {
        if count > 0
            && let Message::Nak { flags, resp, .. } = message
        {
            add(
                alloc,
                units,
                Message::Nak {
                    flags,
                    reason,
                    resp,
                },
            )?;
        }
    }
    Ok(())
}

fn add(alloc: Global, units: &mut Vec<Vec<u8>>, message: Message<'_>) -> Result<(), AllocError> {
    if message.in_range() {
        units.push(write_unit(alloc, &message)?)?;
    }
    Ok(())
}

fn flags_of(message: Message<'_>) -> Flags {
    match message {
        Message::Data { flags, .. }
        | Message::Ack { flags, .. }
        | Message::Nak { flags, .. }
        | Message::Rep { flags, .. }
        | Message::Strt { flags }
        | Message::Stack { flags } => flags,
    }
}

// The message with this RESP, where it has one.
fn with_resp(message: Message<'_>, resp: u8) -> Message<'_> {
    match message {
        Message::Data {
            flags,
            num,
            body,
            ..
        } => Message::Data {
            flags,
            resp,
            num,
            body,
        },
        Message::Ack { flags, .. } => Message::Ack { flags, resp },
        Message::Nak { flags, reason, .. } => Message::Nak {
            flags,
            reason,
            resp,
        },
        _ => message,
    }
}

// The message with this NUM, where it has one.
fn with_num(message: Message<'_>, num: u8) -> Message<'_> {
    match message {
        Message::Data {
            flags,
            resp,
            body,
            ..
        } => Message::Data {
            flags,
            resp,
            num,
            body,
        },
        Message::Rep { flags, .. } => Message::Rep { flags, num },
        _ => message,
    }
}
