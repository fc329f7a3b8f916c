//! The reason that goes with a failed check.

ghost use Rattle.std.specs.Prelude.{◌≡◌, List, ◌∷◌, Option};
ghost use Rattle.pair_judge.specs.FailedCheck.{cause_of, reason_of_failed};
ghost use Rattle.pair_judge.specs.FailedIn as spec;
ghost use Rattle.pair_judge.specs.declared.failed_check.FailedCheck.{FailedCheck as Check};

use crate::failed_check::FailedCheck;
use crate::reason::Reason;
use dna_node::Cause;
use dna_station::{LinkRefusal, StationRefusal, StepRefusal};

impl FailedCheck {
    /// The reason that is printed for it.
    pub fn reason(self) -> Reason
        ensures { result ≡ reason_of_failed self }
    {
        Reason::of_cause(self.cause())
    }

    fn cause(self) -> Cause
        ensures { result ≡ cause_of self }
    {
        match self {
            FailedCheck::NoSuchUnit(_) => Cause::NoSuchUnit,
            FailedCheck::NoOrder { .. } => Cause::NoOrder,
            FailedCheck::Message(_) => Cause::Step(StepRefusal::NotAMessage),
            FailedCheck::HintOrder { .. } => Cause::Step(StepRefusal::HintOrder),
            FailedCheck::Undetected { .. } => Cause::Step(StepRefusal::Undetected),
            FailedCheck::StationSending(failed) => of_station(failed.refusal()),
            FailedCheck::StationArrival(failed) => of_station(failed.refusal()),
            FailedCheck::StationEvent { .. } => of_station(StationRefusal::WrongUserEvent),
            FailedCheck::Packet(_) => Cause::Step(StepRefusal::BadPacket),
            FailedCheck::Nsp(_) => Cause::Step(StepRefusal::BadNsp),
            FailedCheck::LinkSending(failed) => of_links(failed.refusal()),
            FailedCheck::LinkArrival(failed) => of_links(failed.refusal()),
            FailedCheck::LinkEvent(failed) => of_links(failed.refusal()),
            FailedCheck::Noise => Cause::Step(StepRefusal::NotNoise),
        }
    }
}

/// This check, if there is one of this reason, and otherwise what was found of those after it.
pub fn of_reason(
    reason: Reason,
    check: Option<FailedCheck>,
    behind: Option<FailedCheck>,
) -> Option<FailedCheck>
    ensures { (checks : List (Option Check)) → spec.IsFirstOf reason checks behind → spec.IsFirstOf reason (check ∷ checks) result }
{
    let Some(found) = check else {
        return behind;
    };
    if found.reason() == reason {
        return check;
    }
    behind
}

fn of_station(refusal: StationRefusal) -> Cause
    ensures { result ≡ Cause.Step (StepRefusal.Station refusal) }
{
    Cause::Step(StepRefusal::Station(refusal))
}

fn of_links(refusal: LinkRefusal) -> Cause
    ensures { result ≡ Cause.Step (StepRefusal.Links refusal) }
{
    Cause::Step(StepRefusal::Links(refusal))
}
