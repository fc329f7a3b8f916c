//! The check of the links that a user's event does not pass, in words.

use crate::front_behind::FrontBehind;
use crate::link_check_fields::{write_missing, write_wanted};
use crate::link_line::phase_name;
use nsp_link::FailedLinkEvent;
use record_words::lines::Lines;
use record_words::words::ByteCount;
use std::fmt::{self, Formatter, Write};

/// The name of the check.
pub fn link_event_check(failed: FailedLinkEvent) -> &'static str {
    match failed {
        FailedLinkEvent::NoLink(_) => "link",
        FailedLinkEvent::AddressInUse { .. } => "address",
        FailedLinkEvent::TakesMessages { .. } => "phase",
        FailedLinkEvent::IsConnected { .. } => "phase",
        FailedLinkEvent::IsCalling { .. } => "phase",
        FailedLinkEvent::Delivery { .. } => "delivery",
    }
}

/// Writes what the user did, or got, with the digits of the first bytes that are compared.
pub fn write_link_event_seen<W: Write>(
    f: &mut Formatter<W>,
    failed: FailedLinkEvent,
    front: &str,
    lines: Lines,
) -> fmt::Result {
    match failed {
        FailedLinkEvent::NoLink(missing) => write_missing(f, missing, lines),
        FailedLinkEvent::AddressInUse { own, .. } => {
            write!(f, "own address {own}, which a live link has")?;
            match lines.since {
                Some(line) => write!(f, " since line {line}"),
                None => Ok(()),
            }
        }
        FailedLinkEvent::TakesMessages { seen, .. } => {
            write!(f, "a message at a link in {}", phase_name(seen))
        }
        FailedLinkEvent::IsConnected { seen, .. } => {
            write!(f, "a close of a link in {}", phase_name(seen))
        }
        FailedLinkEvent::IsCalling { seen, .. } => {
            write!(f, "an abort of a link in {}", phase_name(seen))
        }
        FailedLinkEvent::Delivery { seen, .. } => {
            let bytes = FrontBehind {
                lead: ": ",
                front,
                count: seen,
            };
            write!(f, "a message of {}{bytes}", ByteCount { count: seen })
        }
    }
}

/// Writes what would be right there, with the digits of the first bytes: with it the check is passed.
pub fn write_link_event_allowed<W: Write>(
    f: &mut Formatter<W>,
    failed: FailedLinkEvent,
    front: &str,
) -> fmt::Result {
    match failed {
        FailedLinkEvent::NoLink(missing) => write_wanted(f, missing.wanted),
        FailedLinkEvent::AddressInUse { .. } => {
            f.write_str("an own address that no live link has")
        }
        FailedLinkEvent::TakesMessages { .. } => {
            f.write_str("a message at a link in Calling, Confirming or RUN")
        }
        FailedLinkEvent::IsConnected { .. } => {
            f.write_str("a close of a link in Confirming or RUN")
        }
        FailedLinkEvent::IsCalling { .. } => f.write_str("an abort of a link in Calling"),
        FailedLinkEvent::Delivery { allowed, .. } => write_delivery(f, allowed, front),
    }
}

// Writes the next message that is whole, if one is.
fn write_delivery<W: Write>(
    f: &mut Formatter<W>,
    length: Option<usize>,
    front: &str,
) -> fmt::Result {
    match length {
        Some(length) => {
            let bytes = FrontBehind {
                lead: ": ",
                front,
                count: length,
            };
            let count = ByteCount { count: length };
            write!(f, "the next whole message, which has {count}{bytes}")
        }
        None => f.write_str("the next whole message: each that is whole was delivered before"),
    }
}
