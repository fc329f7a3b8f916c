//! Which check the refused record does not pass.

ghost use Rattle.std.specs.Prelude.{◌≡◌, option_and_then, option_copied, option_map, slice_get};
ghost use Rattle.nsp_link.specs.Kinds.{queues_of};
ghost use Rattle.nsp_link.specs.View.{rest_of};
ghost use Rattle.pair_judge.specs.JudgedAs.{queues_of as queues_judged};
ghost use Rattle.pair_judge.specs.FailedIn as spec;
ghost use Rattle.pair_judge.specs.Finding.{of_side};
ghost use Rattle.pair_judge.specs.inner.Lines.{held};

use super::JudgedEnds;
use crate::failed_cause::of_reason;
use crate::failed_check::{Awaited, FailedCheck};
use crate::judged_as::Layers;
use crate::line::Line;
use crate::reason::Reason;
use crate::side_end::SideEnd;
use crate::verdict::Verdict;
use nsp_link::{WITH_QUEUES, WITHOUT_QUEUES};
use wire_base::Side;

impl JudgedEnds {
    /// The side of the refused record, and the check that the record does not pass, with what is seen there and what is allowed: over these
    /// layers, as was judged. The check is one of the reason of the verdict. `None` where the pair is accepted, and where none is named. Takes no
    /// memory.
    pub fn failed(&self, layers: Layers) -> Option<(Side, FailedCheck)>
        ensures { spec.IsFailedIn (queues_judged layers) self.now result }
    {
        match layers {
            Layers::Queued => self.failed_by::<WITH_QUEUES>(),
            Layers::Both | Layers::Station => self.failed_by::<WITHOUT_QUEUES>(),
        }
    }

    // The same of nodes with queues, or without.
    fn failed_by<const QUEUES: u8>(&self) -> Option<(Side, FailedCheck)>
        ensures { spec.IsFailedIn (queues_of QUEUES) self.now result }
    {
        let Verdict::Refused {
            side,
            place: _,
            reason,
        } = self.verdict
        else {
            return None;
        };
        match self.first_at::<QUEUES>(side, reason) {
            Some(check) => Some((side, check)),
            None => None,
        }
    }

    // The first check of this reason that fails at this side.
    fn first_at<const QUEUES: u8>(&self, side: Side, reason: Reason) -> Option<FailedCheck>
        ensures { spec.IsFirstOf reason (spec.checks_at (queues_of QUEUES) side self.now) result }
    {
        match side {
            Side::A => first_of::<QUEUES>(reason, &self.a, &self.b, &self.line_b),
            Side::B => first_of::<QUEUES>(reason, &self.b, &self.a, &self.line_a),
        }
    }

    /// What is left of the message that the link of this side with this number sends: bytes with which its next new segment has to begin; `None`
    /// where there is no such link, or all that was handed in is given (NSP 4.0, data segments). Takes no memory.
    pub fn rest(&self, side: Side, number: usize) -> Option<&[u8]>
        ensures { option_copied result ≡ option_and_then rest_of (slice_get (of_side side self.now.a self.now.b).links.links number) }
    {
        match side {
            Side::A => self.a.rest(number),
            Side::B => self.b.rest(number),
        }
    }
}

// The first check of this reason that fails at a side, to which this line leads from the other one.
fn first_of<const QUEUES: u8>(
    reason: Reason,
    own: &SideEnd,
    other: &SideEnd,
    incoming: &Line,
) -> Option<FailedCheck>
    requires { own.now.front ≡ incoming.now.gone }
    ensures { spec.IsFirstOf reason (spec.checks_by (queues_of QUEUES) own.now other.now (held incoming.now)) result }
{
    let here = awaited(own, other);
    let there = awaited(other, own);
    let no_order = of_reason(reason, both_await(here, there), None);
    let no_unit = of_reason(reason, one_awaits(here), no_order);
    of_reason(reason, own.failed_ahead::<QUEUES>(incoming), no_unit)
}

// What a side waits for, if it does.
fn awaited(own: &SideEnd, other: &SideEnd) -> Option<Awaited>
    ensures { result ≡ spec.awaited own.now other.now }
{
    let Some(hint) = own.hint_ahead() else {
        return None;
    };
    Some(Awaited {
        hint,
        sent: other.sent(),
    })
}

fn one_awaits(own: Option<Awaited>) -> Option<FailedCheck>
    ensures { result ≡ option_map FailedCheck.NoSuchUnit own }
{
    match own {
        Some(awaited) => Some(FailedCheck::NoSuchUnit(awaited)),
        None => None,
    }
}

fn both_await(own: Option<Awaited>, other: Option<Awaited>) -> Option<FailedCheck>
    ensures { result ≡ spec.both_await own other }
{
    let Some(own) = own else {
        return None;
    };
    let Some(other) = other else {
        return None;
    };
    Some(FailedCheck::NoOrder { own, other })
}
