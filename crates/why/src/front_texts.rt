//! What is shown of both sides of a check, as texts.

ghost use Rattle.std.specs.Prelude.{◌≡◌, IfOk};
ghost use Rattle.why.specs.Digits.{fronts, fronts_told};

use crate::digits::{Fronts, due_bytes, front_digits, seen_bytes};
use capture_record::Entry;
use pair_judge::SideEnd;
use side_words::undetected::{Differing, difference, name_before};
use std::alloc::{AllocError, Global};
use std::marker::Model;

/// The digits of what a record says and of what its end has there, the name of the unit that the record names, and where it differs from that.
#[derive(Drop)]
pub struct FrontTexts {
    seen: String,
    due: String,
    unit_name: String,
    differs: Option<Differing>,
}

impl Model for FrontTexts {
    ghost use Rattle.std.specs.Prelude.{string_bytes};
    ghost use Rattle.why.specs.Digits.{Fronts};

    ghost Value = { Fronts };

    ghost view = { λ texts. record {
      seen = string_bytes texts.seen;
      due = string_bytes texts.due;
    } };
}

impl FrontTexts {
    /// Those of this record beside this end, and beside the unit that it names, where that is known. Fails for want of memory alone.
    pub fn of(
        alloc: Global,
        end: &SideEnd,
        says: Entry,
        bytes: &[u8],
        unit: Option<&[u8]>,
    ) -> Result<FrontTexts, AllocError>
        ensures { IfOk result (λ texts. texts ≡ fronts end.now.links says bytes.now) }
    {
        let seen = front_digits(alloc, seen_bytes(says, bytes))?;
        let due = front_digits(alloc, due_bytes(end, says, bytes))?;
        let unit_name = name_before(alloc, unit)?;
        let differs = difference(alloc, bytes, unit)?;
        Ok(FrontTexts {
            seen,
            due,
            unit_name,
            differs,
        })
    }

    /// They are lent.
    pub fn lent(&self) -> Fronts<'_>
        ensures { fronts_told result ≡ self.now }
    {
        Fronts {
            seen: self.seen.as_str(),
            due: self.due.as_str(),
            unit_name: self.unit_name.as_str(),
            differs: self.differs,
        }
    }
}
