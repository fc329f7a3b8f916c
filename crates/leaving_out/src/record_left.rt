//! What becomes of a record.

ghost use Rattle.std.specs.Prelude.{◌≡◌, ◌≤◌, ◌++◌, [], if◌then◌else◌, length, OnOk};
ghost use Rattle.capture.specs.declared.hint.HintForm.TheVariants.{Wide};
ghost use Rattle.capture_record.specs.declared.limit.TheConstants.{MAX_MESSAGE};
ghost use Rattle.capture_record.specs.declared.entry.Entry.TheVariants as entries;
ghost use Rattle.capture_record.specs.Entries.{record_with};
ghost use Rattle.capture_record.specs.Range.{IsRecord};
ghost use Rattle.capture.specs.Text.{record_line};
ghost use Rattle.leaving_out.specs.Addresses.{is_left};
ghost use Rattle.leaving_out.specs.Packets.{or_same};
ghost use Rattle.leaving_out.specs.Records as spec;

use crate::leaving::Leaving;
use crate::naming::came_about;
use crate::packet_left::packet_left;
use crate::unit_left::unit_left;
use capture::put_line;
use capture_record::{Entry, Fate};
use link_groups::OwnAddress;
use std::alloc::{AllocError, Global};
use wire_base::Side;

/// Puts the line of what becomes of a record at the end of a text of format 3.
pub(crate) fn put_left(
    alloc: Global,
    text: &mut Vec<u8>,
    leaving: &Leaving<'_>,
    side: Side,
    entry: Entry,
    bytes: &[u8],
) -> Result<(), AllocError>
    requires { IsRecord (record_with entry bytes.now) }
    ensures { OnOk result (text.new.items ≡ text.old.items ++ record_line Wide (spec.record_left leaving.now side (record_with entry bytes.now))) }
{
    match entry {
        Entry::Sent => {
            let left = unit_left(alloc, leaving, side, bytes)?;
            put_changed(text, entry, left, bytes)
        }
        Entry::Received { fate, hint } => {
            let fate = fate_left(leaving, side, fate, bytes);
            let left = unit_left(alloc, leaving, side.other(), bytes)?;
            put_changed(text, Entry::Received { fate, hint }, left, bytes)
        }
        Entry::Composed => {
            let left = packet_left(alloc, leaving, side, bytes)?;
            put_changed(text, entry, left, bytes)
        }
        Entry::Noise => put_line(text, entry, bytes),
        Entry::Start | Entry::Halt | Entry::Boot => put_line(text, entry, &[]),
        Entry::Open { link } | Entry::Close { link } | Entry::Abort { link } => {
            put_event(text, leaving, own(side, link), entry, &[])
        }
        Entry::Accept { partner: _, link } | Entry::Reject { partner: _, link } => {
            put_event(text, leaving, own(side, link), entry, &[])
        }
        Entry::In { link } | Entry::Up { link } => {
            put_event(text, leaving, own(side, link), entry, bytes)
        }
        Entry::Interrupt { link } | Entry::Interrupted { link } => {
            put_event(text, leaving, own(side, link), entry, bytes)
        }
    }
}

// This address of this side.
fn own(side: Side, address: u16) -> OwnAddress
    ensures { result ≡ record { side = side; address = address } }
{
    OwnAddress { side, address }
}

/// The line of an entry with the bytes that became of these.
pub(crate) fn put_changed(
    text: &mut Vec<u8>,
    entry: Entry,
    left: Option<Vec<u8>>,
    bytes: &[u8],
) -> Result<(), AllocError>
    requires { length (or_same bytes.now left) ≤ MAX_MESSAGE }
    ensures { OnOk result (text.new.items ≡ text.old.items ++ record_line Wide (record_with entry (or_same bytes.now left))) }
{
    match left {
        Some(left) => put_line(text, entry, &left),
        None => put_line(text, entry, bytes),
    }
}

// The line of an event of this link: where that is left out, an empty interrupt, which is never judged.
fn put_event(
    text: &mut Vec<u8>,
    leaving: &Leaving<'_>,
    link: OwnAddress,
    entry: Entry,
    bytes: &[u8],
) -> Result<(), AllocError>
    requires { length bytes.now ≤ MAX_MESSAGE }
    ensures { OnOk result (text.new.items ≡ text.old.items ++ record_line Wide
        (if is_left leaving.now link then record_with (entries.Interrupt link.address) [] else record_with entry bytes.now)) }
{
    if leaving.has(link) {
        return put_line(text, Entry::Interrupt { link: link.address }, &[]);
    }
    put_line(text, entry, bytes)
}

// What became of the packet in a unit that came: where its message is left out here, it is lost before the links meet it.
fn fate_left(leaving: &Leaving<'_>, side: Side, fate: Fate, bytes: &[u8]) -> Fate
    ensures { result ≡ spec.fate_left leaving.now side fate bytes.now }
{
    match fate {
        Fate::NotKept => Fate::NotKept,
        Fate::Dropped => Fate::Dropped,
        Fate::Kept => match came_about(side.other(), bytes) {
            Some(link) => {
                if leaving.has(link) {
                    Fate::Dropped
                } else {
                    Fate::Kept
                }
            }
            None => Fate::Kept,
        },
    }
}
