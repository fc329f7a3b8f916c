//! What the checks of the links ask for, in words.

ghost use Rattle.std.specs.Prelude.{◌≡◌, ◌-◌, ◌==◌, if◌then◌else◌};

use dna_links::LinkTest;
use nsp_link::{MissingLink, Numbers};
use record_words::lines::Lines;
use record_words::words::{Range, words_if};
use std::fmt::{self, Formatter, Write};

/// Writes the link that a message or an event asks for. A message may name 0, which is no link's address.
pub fn write_wanted<W: Write>(f: &mut Formatter<W>, wanted: LinkTest) -> fmt::Result {
    match wanted {
        LinkTest::TheLink { own: 0, far } => {
            write!(
                f,
                "a live link with far address {far}: 0 is no link's address"
            )
        }
        LinkTest::TheLink { own, far: 0 } => {
            write!(
                f,
                "a live link with own address {own}: 0 is no link's address"
            )
        }
        LinkTest::HasAddress { own } => write!(f, "a link that got own address {own}"),
        LinkTest::LiveAt { own } => write!(f, "a live link with own address {own}"),
        LinkTest::TheLink { own, far } => write!(f, "the live link {own}-{far}"),
        LinkTest::LiveTo { far } => write!(f, "a live link with far address {far}"),
        LinkTest::OpenedAt { own } => {
            write!(f, "a live link opened here with own address {own}")
        }
        LinkTest::CallingAt { own } => write!(f, "a link in Calling with own address {own}"),
        LinkTest::CalledBy { far } => {
            write!(f, "a call from far address {far} that is not answered")
        }
        LinkTest::BegunBy { far } => {
            write!(f, "a live link that a CI of far address {far} began")
        }
        LinkTest::ActedOn { own, far } => write!(f, "the link {own}-{far} in Confirming or RUN"),
    }
}

/// Writes that there is no such link, in which line one with this own address ended, and whether a live link has one of its addresses, or both,
/// exchanged.
pub fn write_missing<W: Write>(
    f: &mut Formatter<W>,
    missing: MissingLink,
    lines: Lines,
) -> fmt::Result {
    let own = words_if(
        missing.with_own.is_some(),
        "; a live link has that own address",
    );
    let far = words_if(missing.with_far, "; a live link has that far address");
    if lines.exchanged {
        if let LinkTest::TheLink { own, far } = missing.wanted {
            return write!(
                f,
                "no such link; the link {far}-{own} is live: are they exchanged?"
            );
        }
    }
    f.write_str("no such link")?;
    if let Some(line) = ended_in(missing.wanted, lines) {
        write!(f, "; it ended in line {line}")?;
    }
    write!(f, "{own}{far}")
}

// The line in which a link ended that is looked for by its own address.
fn ended_in(wanted: LinkTest, lines: Lines) -> Option<u64> {
    match wanted {
        LinkTest::LiveAt { .. } | LinkTest::TheLink { .. } | LinkTest::OpenedAt { .. } =>
            lines.ended,
        _ => None,
    }
}

/// Writes which acknowledgements are allowed, as a range.
pub fn write_ack_range<W: Write>(f: &mut Formatter<W>, numbers: Numbers) -> fmt::Result {
    let Numbers {
        lowest,
        highest,
        again,
    } = numbers;
    write!(f, "{lowest} to {highest}")?;
    write_again(f, lowest, again)?;
    f.write_str(": the last one sent on this link, and the highest received without a gap")
}

/// Writes which numbers are allowed: one, or a range.
pub fn write_numbers<W: Write>(f: &mut Formatter<W>, numbers: Numbers) -> fmt::Result {
    let range = Range {
        first: numbers.lowest,
        last: numbers.highest,
    };
    write!(f, "{range}")?;
    write_again(f, numbers.lowest, numbers.again)
}

// Writes that older numbers are allowed too, where they are: those below the lowest.
fn write_again<W: Write>(f: &mut Formatter<W>, lowest: u16, first: Option<u16>) -> fmt::Result {
    match first {
        Some(first) => {
            let range = Range {
                first,
                last: number_below(lowest),
            };
            write!(f, ", or again {range}")
        }
        None => Ok(()),
    }
}

// The number in front of one, modulo 4,096.
fn number_below(number: u16) -> u16
    ensures { result ≡ (if number == 0 then 4095 else number - 1) }
{
    if number == 0 {
        return 4095;
    }
    number - 1
}
