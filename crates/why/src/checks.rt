//! The check that the refused record does not pass, over both layers and the line.

use crate::check_words::{Allowed, Seen};
use crate::digits::Fronts;
use crate::rules::{RuleKeys, put_rule};
use ddcmp_msg::Reading;
use pair_judge::{FailedCheck, Reason};
use record_words::lines::Lines;
use record_words::wrapped::put_wrapped;
use side_words::arrival_checks::arrival_check;
use side_words::link_arrival_checks::link_arrival_check;
use side_words::link_event_checks::link_event_check;
use side_words::link_sending_checks::link_sending_check;
use side_words::station_checks::sending_check;
use std::alloc::{AllocError, Global};
use std::fmt::{self, Formatter, Write};
use wire_base::Side;

/// The check that a record of this side does not pass, with the reason for which it is refused, its bytes and how they are read (`HeaderBad` of a
/// user's record, which has none), and what is shown of both sides of it ([`Fronts`]), with the
/// lines that it names.
#[derive(Clone, Copy)]
pub struct Check<'a, 't> {
    pub side: Side,
    pub reason: Reason,
    pub failed: FailedCheck,
    pub bytes: &'a [u8],
    pub reading: Reading<'a>,
    pub fronts: Fronts<'t>,
    pub lines: Lines,
}

/// A check that is not passed, as one JSON object with its LF: what is seen and what is allowed, and the rule with its pages.
#[derive(Clone, Copy)]
pub struct CheckObject<'a, 't> {
    pub check: Check<'a, 't>,
}

impl fmt::Display for CheckObject<'_, '_> {
    fn fmt<W: Write>(&self, f: &mut Formatter<W>) -> fmt::Result {
        let check = self.check;
        let name = check_name(check.failed);
        let seen = Seen { check };
        let allowed = Allowed { check };
        let rule = RuleKeys {
            reason: check.reason,
        };
        write!(
            f,
            "{{\"what\": \"check\", \"check\": \"{name}\", \"seen\": \"{seen}\", \"allowed\": \"{allowed}\", {rule}}}\n"
        )
    }
}

/// The same in rows. Fails for want of memory alone.
pub fn check_rows(alloc: Global, check: Check<'_, '_>) -> Result<String, AllocError> {
    let seen = format!(in alloc; "{}", Seen { check })?;
    let allowed = format!(in alloc; "{}", Allowed { check })?;
    seen_and_allowed(alloc, seen.as_str(), allowed.as_str(), check.reason)
}

/// What is seen and what is allowed, in rows, and the rule of this reason with its pages. Fails for want of memory alone.
pub fn seen_and_allowed(
    alloc: Global,
    seen: &str,
    allowed: &str,
    reason: Reason,
) -> Result<String, AllocError> {
    let mut text = String::new(alloc);
    put_wrapped(&mut text, "  seen     ", seen)?;
    put_wrapped(&mut text, "  allowed  ", allowed)?;
    put_rule(&mut text, reason)?;
    Ok(text)
}

// The name of the check: of the station that in its tables.
fn check_name(failed: FailedCheck) -> &'static str {
    match failed {
        FailedCheck::Message(_) => "message",
        FailedCheck::HintOrder { .. } => "hint order",
        FailedCheck::NoSuchUnit(_) => "hint",
        FailedCheck::NoOrder { .. } => "order",
        FailedCheck::Undetected { .. } => "the line",
        FailedCheck::StationSending(failed) => sending_check(failed),
        FailedCheck::StationArrival(failed) => arrival_check(failed),
        FailedCheck::StationEvent { .. } => "start",
        FailedCheck::Packet(_) => "packet",
        FailedCheck::Nsp(_) => "NSP message",
        FailedCheck::LinkSending(failed) => link_sending_check(failed),
        FailedCheck::LinkArrival(failed) => link_arrival_check(failed),
        FailedCheck::LinkEvent(failed) => link_event_check(failed),
        FailedCheck::Noise => "noise",
    }
}
