//! The lines that the bytes of records tell of: where they are missing, and in front of which line they belong.

use capture_record::{Entry, Fate};
use ddcmp_msg::{Message, NakReason, Reading, read_unit};
use dna_packet::{Nsp, Packet, Segment, read_nsp, read_packet};
use edited::{Damage, Due, Row, Stretch};
use std::alloc::{AllocError, Global};

/// How many messages that came are looked at.
const MESSAGES: usize = 4;

/// A line that nobody sent, whose header shows damage.
const BAD_HEADER: [u8; 1] = [0];

/// A line that nobody sent, whose data are cut after a good header.
const BAD_BODY: [u8; 8] = [0x81, 0x01, 0x00, 0x00, 0x01, 0x01, 0xe3, 0x81];

/// The lines that the record which a side comes to tells of, the likeliest first, but not `u start` and `u halt`, which are tried before any
/// record: of a unit that is sent what its user did, or the noise that it answers; of a message that goes up those that came before. `AllocError`
/// where there is no memory for them.
pub fn due_near(
    alloc: Global,
    stretch: &Stretch,
    entry: Entry,
    bytes: &[u8],
) -> Result<Vec<Due>, AllocError> {
    let mut due = Vec::new(alloc);
    add_near(alloc, &mut due, stretch, entry, bytes)?;
    Ok(due)
}

fn add_near(
    alloc: Global,
    due: &mut Vec<Due>,
    stretch: &Stretch,
    entry: Entry,
    bytes: &[u8],
) -> Result<(), AllocError> {
    match entry {
        Entry::Sent => add_of_unit(alloc, due, stretch.line, bytes),
        Entry::Up { link } => add_messages(alloc, due, stretch, link),
        _ => Ok(()),
    }
}

/// The damage of which a record tells: a NAK that is sent names it.
pub fn damage_of(entry: Entry, bytes: &[u8]) -> Option<Damage> {
    if entry != Entry::Sent {
        return None;
    }
    match read_unit(bytes) {
        Reading::Sound(Message::Nak { reason, .. }) => damage_behind(reason),
        _ => None,
    }
}

fn damage_behind(reason: NakReason) -> Option<Damage> {
    match reason {
        NakReason::HeaderCheck => Some(Damage::Header),
        NakReason::DataCheck => Some(Damage::Body),
        _ => None,
    }
}

// What a unit that is sent tells of.
fn add_of_unit(
    alloc: Global,
    due: &mut Vec<Due>,
    before: u64,
    bytes: &[u8],
) -> Result<(), AllocError> {
    match read_unit(bytes) {
        Reading::Sound(Message::Nak { reason, .. }) => add_noise(alloc, due, before, reason),
        Reading::Sound(Message::Data { body, .. }) => match read_packet(body) {
            Ok(Packet::Data { nsp, .. }) => add_of_message(alloc, due, before, nsp),
            Ok(Packet::Control(_)) | Err(_) => Ok(()),
        },
        _ => Ok(()),
    }
}

// The noise that a NAK answers.
fn add_noise(
    alloc: Global,
    due: &mut Vec<Due>,
    before: u64,
    reason: NakReason,
) -> Result<(), AllocError> {
    match damage_behind(reason) {
        Some(Damage::Header) => add(alloc, due, (before, Entry::Noise), &BAD_HEADER),
        Some(Damage::Body) => add(alloc, due, (before, Entry::Noise), &BAD_BODY),
        None => Ok(()),
    }
}

// What a message of the links that is sent tells of.
fn add_of_message(
    alloc: Global,
    due: &mut Vec<Due>,
    before: u64,
    nsp: &[u8],
) -> Result<(), AllocError> {
    match read_nsp(nsp) {
        Ok(Nsp::ConnectInitiate(call)) => {
            let link = call.srcaddr;
            add(alloc, due, (before, Entry::Open { link }), &[])
        }
        Ok(Nsp::ConnectConfirm(confirm)) => {
            let (partner, link) = (confirm.dstaddr, confirm.srcaddr);
            add(alloc, due, (before, Entry::Accept { partner, link }), &[])
        }
        Ok(Nsp::DisconnectInitiate(end)) => {
            let (partner, link) = (end.dstaddr, end.srcaddr);
            add(alloc, due, (before, Entry::Close { link }), &[])?;
            add(alloc, due, (before, Entry::Reject { partner, link }), &[])
        }
        Ok(Nsp::DataSegment(segment)) => {
            let link = segment.srcaddr;
            add(alloc, due, (before, Entry::In { link }), segment.body)
        }
        _ => Ok(()),
    }
}

// One line.
fn add(
    alloc: Global,
    due: &mut Vec<Due>,
    line: (u64, Entry),
    bytes: &[u8],
) -> Result<(), AllocError> {
    let (before, entry) = line;
    let bytes = bytes.to_vec(alloc)?;
    due.push(Due {
        before,
        entry,
        bytes,
    })?;
    Ok(())
}

// The last messages of this link that came whole in front of the record, each with the line after the receipt that ended it, except those that go up
// in that line.
fn add_messages(
    alloc: Global,
    due: &mut Vec<Due>,
    stretch: &Stretch,
    link: u16,
) -> Result<(), AllocError> {
    let entry = Entry::Up { link };
    let mut message = Vec::new(alloc);
    let mut is_whole = false;
    for (at, row) in stretch.rows.iter().enumerate() {
        if row.line >= stretch.line {
            break;
        }
        let Some(segment) = segment_kept(row, link) else {
            continue;
        };
        if segment.begins {
            message.clear();
            is_whole = true;
        }
        message.extend_from_slice(segment.body)?;
        if segment.ends && is_whole && !says(stretch.rows.get(at + 1), entry, &message) {
            add(alloc, due, (row.line.saturating_add(1), entry), &message)?;
            is_whole = false;
        }
    }
    let old = due.len().saturating_sub(MESSAGES);
    due.drain(..old);
    Ok(())
}

// The segment of this link that was received, where its packet was kept.
fn segment_kept(row: &Row, link: u16) -> Option<Segment<'_>> {
    let Entry::Received {
        fate: Fate::Kept,
        ..
    } = row.entry
    else {
        return None;
    };
    let Reading::Sound(Message::Data { body, .. }) = read_unit(&row.bytes) else {
        return None;
    };
    let Ok(Packet::Data { nsp, .. }) = read_packet(body) else {
        return None;
    };
    match read_nsp(nsp) {
        Ok(Nsp::DataSegment(segment)) if segment.dstaddr == link => Some(segment),
        _ => None,
    }
}

// Whether the row is of this line.
fn says(row: Option<&Row>, entry: Entry, bytes: &[u8]) -> bool {
    match row {
        Some(row) => row.entry == entry && row.bytes.as_slice() == bytes,
        None => false,
    }
}
