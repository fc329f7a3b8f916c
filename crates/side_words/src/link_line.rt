//! A live link, as a JSON object and in rows.

ghost use Rattle.std.specs.Prelude.{◌≡◌, ◌||◌, ◌==◌, nat_lt, not};
ghost use Rattle.side_words.specs.LinkLine as spec;

use crate::form::Form;
use dna_links::{LinkQueue, Phase, Port, Said};
use nsp_link::{LinkNumbers, LinkView};
use record_words::words::short_number_or;
use std::fmt::{self, Formatter, Write};
use wire_base::Side;

/// A live link of a side where a record is refused, as it was before it (NSP 4.0, ports), with its LF.
#[derive(Clone, Copy)]
pub struct LinkTold {
    pub form: Form,
    pub side: Side,
    pub link: LinkView,
}

impl fmt::Display for LinkTold {
    fn fmt<W: Write>(&self, f: &mut Formatter<W>) -> fmt::Result {
        match self.form {
            Form::Object => write_object(f, self.side, self.link),
            Form::Rows => write_row(f, self.link),
        }
    }
}

fn write_object<W: Write>(f: &mut Formatter<W>, side: Side, link: LinkView) -> fmt::Result {
    write!(f, "{{\"what\": \"link\", \"side\": \"{side}\", ")?;
    write_port(f, link.port, link.segsize)?;
    f.write_str(", ")?;
    write_numbers(f, Form::Object, link.numbers)?;
    if has_queue(link.queue) {
        write_queue_keys(f, link.queue)?;
    }
    f.write_str("}\n")
}

// Writes the keys of what the queues of its node leave open of a link. A call that was given up waits as in Called.
fn write_queue_keys<W: Write>(f: &mut Formatter<W>, queue: LinkQueue) -> fmt::Result {
    let LinkQueue { ran, accepted, .. } = queue;
    let said = match queue.said {
        Said::Nothing => "null",
        Said::OfRun => "\"RUN\"",
        Said::Disconnect => "\"DI\"",
    };
    write!(
        f,
        ", \"accepted\": {accepted}, \"ran\": {ran}, \"said\": {said}, \"ending\": "
    )?;
    match queue.waits {
        Some(Phase::Called) => f.write_str("\"given up\""),
        Some(phase) => write!(f, "\"{}\"", phase_name(phase)),
        None => f.write_str("null"),
    }
}

// Writes the keys of a link's addresses, its phase and SEGSIZE.
fn write_port<W: Write>(f: &mut Formatter<W>, port: Port, segsize: u16) -> fmt::Result {
    let own = short_number_or("null", port.own);
    let far = short_number_or("null", port.far);
    let phase = phase_name(port.phase);
    let segsize = short_number_or("null", known_segsize(port.phase, segsize));
    write!(
        f,
        "\"own\": {own}, \"far\": {far}, \"phase\": \"{phase}\", \"segsize\": {segsize}"
    )
}

fn write_row<W: Write>(f: &mut Formatter<W>, link: LinkView) -> fmt::Result {
    let own = short_number_or("?", link.port.own);
    let far = short_number_or("?", link.port.far);
    let phase = phase_name(link.port.phase);
    write!(f, "  link     {own}-{far} {phase}")?;
    if let Some(segsize) = known_segsize(link.port.phase, link.segsize) {
        write!(f, ", SEGSIZE {segsize}")?;
    }
    f.write_str("\n           ")?;
    write_numbers(f, Form::Rows, link.numbers)?;
    if has_queue(link.queue) {
        write_queue(f, link.queue)?;
    }
    f.write_str("\n")
}

// Writes how far a link of a node with queues has come, and in which phase it ended while something of it waits.
fn write_queue<W: Write>(f: &mut Formatter<W>, queue: LinkQueue) -> fmt::Result {
    let come = match (queue.ran, queue.accepted) {
        (true, _) => "reached RUN",
        (false, true) => "accepted",
        (false, false) => "has not reached RUN",
    };
    let said = match queue.said {
        Said::Nothing => "no message of RUN and no DI sent",
        Said::OfRun => "a message of RUN sent",
        Said::Disconnect => "a DI sent",
    };
    write!(f, "\n           {come}, {said}")?;
    match queue.waits {
        Some(Phase::Called) => f.write_str("\n           given up; its CI may still be sent"),
        Some(phase) => {
            let phase = phase_name(phase);
            write!(
                f,
                "\n           ended in {phase}; what it composed before may still be sent"
            )
        }
        None => Ok(()),
    }
}

// Whether something is remembered of a link for its node's queues: never without queues.
fn has_queue(queue: LinkQueue) -> bool {
    if queue.ran || queue.accepted {
        return true;
    }
    queue.waits.is_some() || !matches!(queue.said, Said::Nothing)
}

// Writes the numbers of a link's segments.
fn write_numbers<W: Write>(f: &mut Formatter<W>, form: Form, numbers: LinkNumbers) -> fmt::Result {
    let LinkNumbers {
        given,
        acknowledged,
        received,
        last_sent,
        ..
    } = numbers;
    match form {
        Form::Object => write!(
            f,
            "\"given\": {given}, \"acknowledged\": {acknowledged}, \"received\": {received}, \"last_ack\": {last_sent}"
        ),
        Form::Rows => write!(
            f,
            "given {given}, acknowledged {acknowledged}, received {received}, last acknowledged {last_sent}"
        ),
    }
}

/// The name of a link's phase.
pub fn phase_name(phase: Phase) -> &'static str {
    match phase {
        Phase::Calling => "Calling",
        Phase::Called => "Called",
        Phase::Confirming => "Confirming",
        Phase::Running => "RUN",
        Phase::Disconnecting => "DI",
        Phase::Ended => "ended",
    }
}

// SEGSIZE once it is known: in Calling nothing was acted on yet.
fn known_segsize(phase: Phase, segsize: u16) -> Option<u16>
    ensures { result ≡ spec.known_segsize phase segsize }
{
    match phase {
        Phase::Calling => None,
        Phase::Called | Phase::Confirming | Phase::Running | Phase::Disconnecting | Phase::Ended =>
            Some(segsize),
    }
}

/// Whether a link is live: an ended one is not.
pub fn is_live(phase: Phase) -> bool
    ensures { result ≡ spec.is_live phase }
{
    match phase {
        Phase::Ended => false,
        Phase::Calling
        | Phase::Called
        | Phase::Confirming
        | Phase::Running
        | Phase::Disconnecting => true,
    }
}

/// Whether something of a link is open: an answer is awaited or owed, of a CI, a CC or a DI, of a segment, or of what was received.
pub fn has_open(phase: Phase, numbers: LinkNumbers) -> bool
    ensures { result ≡ spec.has_open phase numbers }
{
    match phase {
        Phase::Ended => false,
        Phase::Running => has_open_segments(numbers),
        Phase::Calling | Phase::Called | Phase::Confirming | Phase::Disconnecting => true,
    }
}

fn has_open_segments(numbers: LinkNumbers) -> bool
    ensures { result ≡ (nat_lt 0 numbers.outstanding || not (numbers.received == numbers.last_sent)) }
{
    numbers.outstanding > 0 || numbers.received != numbers.last_sent
}
