//! What there is to say of each reason: as docs/REASONS.md has it, line breaks and links apart, and in one sentence. All words of a reason are in
//! its constant.

ghost use Rattle.std.specs.Prelude.{◌≡◌};

use dna_node::Cause;
use pair_judge::Reason;

mod links;
mod packets;
mod stations;
mod units;

/// What there is to say of a reason, in parts, each without its last LF. Lines have at most 79 columns.
#[derive(Clone, Copy)]
pub struct Explanation {
    /// The reason, with its number and name.
    pub reason: Reason,
    /// What was seen, as it goes on after `Seen: `.
    pub seen: &'static str,
    /// The rule that the record breaks, after `Rule: `.
    pub rule: &'static str,
    /// What would have been allowed, after `Allowed: `.
    pub allowed: &'static str,
    /// By whose fault it is.
    pub fault: &'static str,
    /// What usually causes it, one line for each point, with `- ` before it: mistakes of a recorder, then, with `- node`, bugs of a node.
    pub look_for: &'static str,
    /// What to do first, after `First: `.
    pub first: &'static str,
    /// The rule in one sentence, as it is told of a refused record.
    pub sentence: &'static str,
    /// The page of the reason: its heading in the list of the reasons.
    pub page: &'static str,
    /// The part of the documents that has the whole table of the rule.
    pub table: &'static str,
}

/// The explanation of this reason.
pub fn explanation_of(reason: Reason) -> Explanation
    ensures { result.reason ≡ reason }
{
    match reason.cause() {
        Cause::NoSuchUnit => units::NO_SUCH_UNIT,
        Cause::NoOrder => units::NO_ORDER,
        Cause::Step(refusal) => units::of_step(refusal),
    }
}
