//! Look-ups: which link a message or an event is about.

ghost use Rattle.std.specs.Prelude.{◌≡◌};
ghost use Rattle.dna_links.specs.LookUps as tests;

use dna_links::{LinkTest, Phase, Port};

/// Whether a link is the one that is looked for.
#[inline(always)]
pub fn passes(test: LinkTest, port: Port) -> bool
    ensures { result ≡ tests.passes test port }
{
    match test {
        LinkTest::HasAddress { own } => is_at(port.own, own),
        LinkTest::LiveAt { own } => is_live(port.phase) && is_at(port.own, own),
        LinkTest::TheLink { own, far } => is_live(port.phase) && has_both(port, own, far),
        LinkTest::LiveTo { far } => is_live(port.phase) && is_at(port.far, far),
        LinkTest::OpenedAt { own } => is_live(port.phase) && port.opened && is_at(port.own, own),
        LinkTest::CallingAt { own } => is_calling(port.phase) && is_at(port.own, own),
        LinkTest::CalledBy { far } => is_called(port.phase) && is_at(port.far, far),
        LinkTest::BegunBy { far } => is_live(port.phase) && !port.opened && is_at(port.far, far),
        LinkTest::ActedOn { own, far } => is_connected(port.phase) && has_both(port, own, far),
    }
}

fn has_both(port: Port, own: u16, far: u16) -> bool
    ensures { result ≡ tests.has_both port own far }
{
    is_at(port.own, own) && is_at(port.far, far)
}

fn is_at(known: Option<u16>, number: u16) -> bool
    ensures { result ≡ tests.is_at known number }
{
    match known {
        Some(known) => known == number,
        None => false,
    }
}

fn is_live(phase: Phase) -> bool
    ensures { result ≡ tests.is_live phase }
{
    !matches!(phase, Phase::Ended)
}

// Whether a link is in Calling.
fn is_calling(phase: Phase) -> bool
    ensures { result ≡ tests.is_calling phase }
{
    matches!(phase, Phase::Calling)
}

fn is_called(phase: Phase) -> bool
    ensures { result ≡ tests.is_called phase }
{
    matches!(phase, Phase::Called)
}

/// Whether a link is in RUN.
pub fn is_running(phase: Phase) -> bool
    ensures { result ≡ tests.is_running phase }
{
    matches!(phase, Phase::Running)
}

/// Whether both sides have agreed.
pub fn is_connected(phase: Phase) -> bool
    ensures { result ≡ tests.is_connected phase }
{
    matches!(phase, Phase::Confirming | Phase::Running)
}

/// Whether the user may hand messages in.
pub fn takes_messages(phase: Phase) -> bool
    ensures { result ≡ tests.takes_messages phase }
{
    matches!(phase, Phase::Calling | Phase::Confirming | Phase::Running)
}
