//! The link that a record is about, at either end.

ghost use Rattle.std.specs.Prelude.{◌≡◌, IfOk};
ghost use Rattle.std.specs.List.{filter};
ghost use Rattle.dna_packet.specs.Nsp as nsp;
ghost use Rattle.dna_packet.specs.ReadingNsp.{nsp_at};
ghost use Rattle.side_words.specs.Subject as spec;

use capture_record::Entry;
use dna_packet::{Nsp, read_nsp};
use nsp_link::LinkView;
use record_words::layers::{message_in, message_in_unit};
use std::alloc::{AllocError, Global};

/// The addresses of a link at one end, as far as they are named.
#[derive(Clone, Copy, PartialEq, Eq)]
pub struct Addresses {
    pub own: Option<u16>,
    pub far: Option<u16>,
}

impl Addresses {
    /// None is named.
    pub fn none() -> Addresses
        ensures { result ≡ spec.no_address }
    {
        Addresses {
            own: None,
            far: None,
        }
    }

    /// Those of the same link at the other end.
    pub fn turned(self) -> Addresses
        ensures { result ≡ spec.turned self }
    {
        Addresses {
            own: self.far,
            far: self.own,
        }
    }
}

/// The addresses that a record of this entry and these bytes names, as its own end has them.
pub fn addresses_of(entry: Entry, bytes: &[u8]) -> Addresses
    ensures { result ≡ spec.addresses_of entry bytes.now }
{
    match entry {
        Entry::Sent => addresses_in(bytes),
        Entry::Received { .. } => addresses_in(bytes).turned(),
        Entry::Composed => addresses_in_packet(bytes),
        Entry::Open { link } | Entry::In { link } | Entry::Up { link } | Entry::Close { link } => {
            own_address(link)
        }
        Entry::Abort { link } | Entry::Interrupt { link } | Entry::Interrupted { link } => {
            own_address(link)
        }
        Entry::Accept { partner, link } | Entry::Reject { partner, link } => both(link, partner),
        Entry::Start | Entry::Halt | Entry::Boot | Entry::Noise => Addresses::none(),
    }
}

// Those of the message in a unit, as its sender has them.
fn addresses_in(bytes: &[u8]) -> Addresses
    ensures { result ≡ spec.addresses_in bytes.now }
{
    match message_in_unit(bytes) {
        Some(message) => addresses_by(message),
        None => Addresses::none(),
    }
}

// Those of the message in a packet, as its sender has them.
fn addresses_in_packet(bytes: &[u8]) -> Addresses
    ensures { result ≡ spec.addresses_in_packet bytes.now }
{
    match message_in(bytes) {
        Some(message) => addresses_by(message),
        None => Addresses::none(),
    }
}

fn addresses_by(message: &[u8]) -> Addresses
    ensures { result ≡ spec.addresses_by (nsp_at message.now) }
{
    match &read_nsp(message) {
        Ok(message) => named_by(message),
        Err(_) => Addresses::none(),
    }
}

fn named_by(message: &Nsp<'_>) -> Addresses
    ensures { result ≡ spec.named_by (nsp.view message.now) }
{
    match message {
        Nsp::DataSegment(message) => both(message.srcaddr, message.dstaddr),
        Nsp::LinkService(message) => both(message.srcaddr, message.dstaddr),
        Nsp::DataAck(message) => both(message.srcaddr, message.dstaddr),
        Nsp::OtherDataAck(message) => both(message.srcaddr, message.dstaddr),
        Nsp::ConnectAck(message) => far_address(message.dstaddr),
        Nsp::NoOperation(_) => Addresses::none(),
        Nsp::ConnectInitiate(message) => own_address(message.srcaddr),
        Nsp::ConnectConfirm(message) => both(message.srcaddr, message.dstaddr),
        Nsp::DisconnectInitiate(message) => both(message.srcaddr, message.dstaddr),
        Nsp::DisconnectConfirm(message) => both(message.srcaddr, message.dstaddr),
    }
}

fn both(own: u16, far: u16) -> Addresses
    ensures { result ≡ spec.both own far }
{
    Addresses {
        own: Some(own),
        far: Some(far),
    }
}

fn own_address(own: u16) -> Addresses
    ensures { result ≡ spec.own_address own }
{
    Addresses {
        own: Some(own),
        far: None,
    }
}

fn far_address(far: u16) -> Addresses
    ensures { result ≡ spec.far_address far }
{
    Addresses {
        own: None,
        far: Some(far),
    }
}

/// The links of these that are the one which the record is about: that with its own address, or where none has that, those with its far
/// address. Fails for want of memory alone.
pub fn subjects(
    alloc: Global,
    named: Addresses,
    live: &[LinkView],
) -> Result<Vec<LinkView>, AllocError>
    ensures { IfOk result (λ found. found.items ≡ spec.subjects named live.now) }
{
    let by_own = has_own(named, live);
    let mut found = Vec::new(alloc);
    for link in live {
        if is_subject(named, by_own, *link) {
            found.push(*link)?;
        }
    }
    Ok(found)
}

/// The other ones of these. Fails for want of memory alone.
pub fn others(
    alloc: Global,
    named: Addresses,
    live: &[LinkView],
) -> Result<Vec<LinkView>, AllocError>
    ensures { IfOk result (λ found. found.items ≡ spec.others named live.now) }
{
    let by_own = has_own(named, live);
    let mut found = Vec::new(alloc);
    for link in live {
        if is_other(named, by_own, *link) {
            found.push(*link)?;
        }
    }
    Ok(found)
}

// Whether a link has the own address that is named.
fn has_own(named: Addresses, live: &[LinkView]) -> bool
    ensures { result ≡ spec.has_own named live.now }
{
    for link in live {
        if is_at(named.own, link.port.own) {
            return true;
        }
    }
    false
}

// Whether a link is the one that the record is about, where its own address tells, or else its far one.
fn is_subject(named: Addresses, by_own: bool, link: LinkView) -> bool
    ensures { result ≡ spec.is_subject named by_own link }
{
    if by_own {
        return is_at(named.own, link.port.own);
    }
    is_at(named.far, link.port.far)
}

fn is_other(named: Addresses, by_own: bool, link: LinkView) -> bool
    ensures { result ≡ spec.is_other named by_own link }
{
    !is_subject(named, by_own, link)
}

// Whether both addresses are known and the same.
fn is_at(named: Option<u16>, known: Option<u16>) -> bool
    ensures { result ≡ spec.is_at named known }
{
    match (named, known) {
        (Some(named), Some(known)) => named == known,
        _ => false,
    }
}
