//! The rule of each reason.

use crate::explanations::{Explanation, explanation_of};
use pair_judge::Reason;
use record_words::wrapped::put_wrapped;
use std::alloc::AllocError;
use std::fmt::{self, Formatter, Write};

/// The rule that a record breaks which is refused for this reason, in one sentence; after it the page of the reason, and the part of the documents
/// that has the whole table: as keys of a JSON object.
#[derive(Clone, Copy)]
pub struct RuleKeys {
    pub reason: Reason,
}

impl fmt::Display for RuleKeys {
    fn fmt<W: Write>(&self, f: &mut Formatter<W>) -> fmt::Result {
        let Explanation {
            sentence,
            page,
            table,
            ..
        } = explanation_of(self.reason);
        write!(
            f,
            "\"rule\": \"{sentence}\", \"page\": \"{page}\", \"table\": \"{table}\""
        )
    }
}

/// Appends the same in rows.
pub fn put_rule(text: &mut String, reason: Reason) -> Result<(), AllocError> {
    let told = explanation_of(reason);
    put_wrapped(text, "  rule     ", told.sentence)?;
    put_wrapped(text, "  page     ", told.page)?;
    put_wrapped(text, "           ", told.table)
}
