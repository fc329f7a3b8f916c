//! The open causes of NAKs, in a list.

ghost use Rattle.std.specs.Prelude.{◌≡◌};
ghost use Rattle.side_words.specs.inner.Causes as spec;

use crate::form::Form;
use ddcmp_msg::NakReason;
use ddcmp_station::OpenCauses;
use record_words::unit_words::nak_words;
use record_words::words::words_if;
use std::fmt::{self, Formatter, Write};

/// How the open causes of one reason are told.
#[derive(Clone, Copy)]
pub enum CauseForm {
    /// As a key of a JSON object: `"8": 2`.
    Key,
    /// As `2 x reason 8 (no buffer)`.
    Counted,
    /// By the number of the reason alone: `8`.
    Number,
}

/// What a NAK may still answer: as a JSON object, `{"1": 2, "8": 1}`, or in a row as `1 x reason 8 (no buffer)`, where `none` stands for none.
#[derive(Clone, Copy)]
pub struct CausesTold {
    pub form: Form,
    pub causes: OpenCauses,
}

impl fmt::Display for CausesTold {
    fn fmt<W: Write>(&self, f: &mut Formatter<W>) -> fmt::Result {
        match self.form {
            Form::Object => {
                let list = CauseList {
                    form: CauseForm::Key,
                    causes: self.causes,
                };
                write!(f, "{{{list}}}")
            }
            Form::Rows => write_counted(f, self.causes),
        }
    }
}

fn write_counted<W: Write>(f: &mut Formatter<W>, causes: OpenCauses) -> fmt::Result {
    if has_any(causes) {
        let list = CauseList {
            form: CauseForm::Counted,
            causes,
        };
        return write!(f, "{list}");
    }
    f.write_str("none")
}

/// Writes the reasons that a NAK may have: those of which a cause is open, and those that need none.
pub fn write_allowed_reasons<W: Write>(f: &mut Formatter<W>, causes: OpenCauses) -> fmt::Result {
    if has_any(causes) {
        let list = CauseList {
            form: CauseForm::Number,
            causes,
        };
        return write!(f, "a NAK of reason {list}, 9, 16 or 17");
    }
    f.write_str("a NAK of reason 9, 16 or 17")
}

// The reasons that have open causes.
#[derive(Clone, Copy)]
struct CauseList {
    form: CauseForm,
    causes: OpenCauses,
}

impl fmt::Display for CauseList {
    fn fmt<W: Write>(&self, f: &mut Formatter<W>) -> fmt::Result {
        let CauseList { form, causes } = *self;
        let OpenCauses {
            header_check,
            data_check,
            rep_response,
            no_buffer,
        } = causes;
        form.write_cause(f, false, NakReason::HeaderCheck, header_check)?;
        form.write_cause(f, has_header(causes), NakReason::DataCheck, data_check)?;
        form.write_cause(f, has_data(causes), NakReason::RepResponse, rep_response)?;
        form.write_cause(f, has_rep(causes), NakReason::NoBuffer, no_buffer)
    }
}

impl CauseForm {
    // Writes one reason, if it has open causes; after another one it is set off.
    fn write_cause<W: Write>(
        self,
        f: &mut Formatter<W>,
        is_behind: bool,
        reason: NakReason,
        count: u64,
    ) -> fmt::Result {
        if count == 0 {
            return Ok(());
        }
        let comma = words_if(is_behind, ", ");
        match self {
            CauseForm::Key => write!(f, "{comma}\"{}\": {count}", reason.number()),
            CauseForm::Counted => write!(f, "{comma}{count} x reason {}", nak_words(reason)),
            CauseForm::Number => write!(f, "{comma}{}", reason.number()),
        }
    }
}

fn has_header(causes: OpenCauses) -> bool
    ensures { result ≡ spec.has_header causes }
{
    causes.header_check > 0
}

fn has_data(causes: OpenCauses) -> bool
    ensures { result ≡ spec.has_data causes }
{
    has_header(causes) || causes.data_check > 0
}

fn has_rep(causes: OpenCauses) -> bool
    ensures { result ≡ spec.has_rep causes }
{
    has_data(causes) || causes.rep_response > 0
}

fn has_any(causes: OpenCauses) -> bool
    ensures { result ≡ spec.has_any causes }
{
    has_rep(causes) || causes.no_buffer > 0
}
