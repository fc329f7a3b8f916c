//! The phase that a message asks for.

ghost use Rattle.std.specs.Prelude.{◌≡◌};
ghost use Rattle.dna_links.specs.LookUps as tests;
ghost use Rattle.nsp_link.specs.Phases as phases;

use dna_links::Phase;

/// Whether a link is in the phase that a message asks for: Calling, Confirming, RUN or DI.
#[inline(always)]
pub fn is_in(wanted: Phase, phase: Phase) -> bool
    ensures { result ≡ phases.is_in wanted phase }
{
    match wanted {
        Phase::Calling => matches!(phase, Phase::Calling),
        Phase::Confirming => matches!(phase, Phase::Confirming),
        Phase::Running => matches!(phase, Phase::Running),
        Phase::Disconnecting => matches!(phase, Phase::Disconnecting),
        Phase::Called | Phase::Ended => false,
    }
}

/// Whether a link is in this phase.
#[inline(always)]
pub fn is_phase(wanted: Phase, phase: Phase) -> bool
    ensures { result ≡ tests.is_in wanted phase }
{
    match wanted {
        Phase::Calling => matches!(phase, Phase::Calling),
        Phase::Called => matches!(phase, Phase::Called),
        Phase::Confirming => matches!(phase, Phase::Confirming),
        Phase::Running => matches!(phase, Phase::Running),
        Phase::Disconnecting => matches!(phase, Phase::Disconnecting),
        Phase::Ended => matches!(phase, Phase::Ended),
    }
}
