//! The lines of an answer with all refusals, as they are found.

use crate::all_left::Beyond;
use json_text::Members;
use pair_judge::Reason;
use printing::how::Form;
use printing::objects::{put_place, put_reason};
use printing::path_text::put_path;
use std::alloc::{AllocError, Global};
use wire_base::Side;

/// How many refusals are told at most.
pub const MOST_TOLD: usize = 50;

/// A record that is refused.
#[derive(Clone, Copy)]
pub struct Refusal {
    pub side: Side,
    pub place: u64,
    pub reason: Reason,
    /// Whether the capture of one end accuses the other end.
    pub by_other_end: bool,
}

/// An answer on captures, or on what is left of them.
#[derive(Drop)]
pub struct Answer {
    /// What is told of it, with its LF.
    pub text: Vec<u8>,
    /// The record that is refused, if one is.
    pub refusal: Option<Refusal>,
    /// 0 accepted, 1 refused, 2 of a text that departs.
    pub status: u8,
}

impl Answer {
    /// The refusal behind which the judgement goes on, and what it leads to; none where it ends.
    pub fn leads_beyond(&self) -> Option<(Refusal, Beyond)> {
        let refusal = self.refusal?;
        match Beyond::of(refusal.reason) {
            Beyond::Ends => None,
            beyond => Some((refusal, beyond)),
        }
    }
}

/// What was told so far.
#[derive(Drop)]
pub struct AllTold {
    alloc: Global,
    text: Vec<u8>,
    form: Form,
    // Whether a refusal takes many rows.
    is_long: bool,
    // What is told before the next line.
    pending: Beyond,
    // The refusals that were found, the last one too.
    refusals: Vec<Refusal>,
}

impl AllTold {
    /// Nothing. Of several pairs each begins with the name of its first file.
    pub fn new(alloc: Global, form: Form, is_long: bool) -> AllTold {
        AllTold {
            alloc,
            text: Vec::new(alloc),
            form,
            is_long,
            pending: Beyond::Ends,
            refusals: Vec::new(alloc),
        }
    }

    /// The name of the pair, before its first answer.
    pub fn name(&mut self, path: &str) -> Result<(), AllocError> {
        put_path(&mut self.text, path)?;
        self.text.extend_from_slice(b": ")
    }

    /// What is told by now.
    pub fn bytes(&self) -> &[u8] {
        self.text.as_slice()
    }

    /// The refusals that were found, the last one too.
    pub fn into_refusals(self) -> Vec<Refusal> {
        self.refusals
    }

    // An answer that leads on, and to what.
    fn refused(
        &mut self,
        answer: &Answer,
        refusal: Refusal,
        beyond: Beyond,
    ) -> Result<(), AllocError> {
        self.put_pending()?;
        self.text.extend_from_slice(answer.text.as_slice())?;
        self.pending = beyond;
        self.refusals.push(refusal)?;
        Ok(())
    }

    /// An answer, if it leads on.
    pub fn leading(&mut self, answer: &Answer) -> Result<(), AllocError> {
        match answer.leads_beyond() {
            Some((refusal, beyond)) => self.refused(answer, refusal, beyond),
            None => Ok(()),
        }
    }

    /// The only answer.
    pub fn only(&mut self, answer: &Answer) -> Result<(), AllocError> {
        self.text.extend_from_slice(answer.text.as_slice())
    }

    /// What is answered once no more is left out.
    pub fn ends(&mut self, answer: &Answer) -> Result<(), AllocError> {
        self.put_pending()?;
        match self.form {
            Form::Rows => self.text.extend_from_slice(b"else ")?,
            Form::Json => self.put_object(begun(self.alloc, "else"))?,
        }
        self.text.extend_from_slice(answer.text.as_slice())?;
        if let Some(refusal) = answer.refusal {
            self.refusals.push(refusal)?;
        }
        Ok(())
    }

    /// More is refused than is told: this is the next refusal.
    pub fn goes_on(&mut self, refusal: Refusal) -> Result<(), AllocError> {
        self.put_pending()?;
        self.refusals.push(refusal)?;
        match self.form {
            Form::Rows => self.text.extend_from_slice(b"and more\n"),
            Form::Json => self.put_object(begun(self.alloc, "more")),
        }
    }

    // What is not asked from the last refusal on. Long answers have an empty row between them.
    fn put_pending(&mut self) -> Result<(), AllocError> {
        if self.refusals.is_empty() {
            return Ok(());
        }
        match self.form {
            Form::Rows => self.put_pending_words(),
            Form::Json => match self.pending.unasked() {
                Some(unasked) => self.put_object(from_here(self.alloc, unasked)),
                None => Ok(()),
            },
        }
    }

    fn put_pending_words(&mut self) -> Result<(), AllocError> {
        if self.is_long {
            self.text.push(b'\n')?;
        }
        let words = self.pending.words();
        self.text.extend_from_slice(words.as_bytes())?;
        if self.is_long && !words.is_empty() {
            self.text.push(b'\n')?;
        }
        Ok(())
    }

    fn put_object(&mut self, object: Members) -> Result<(), AllocError> {
        let line = object.into_line()?;
        self.text.extend_from_slice(line.as_slice())
    }
}

/// A verdict of which `why` tells no more, with its LF.
pub fn plain_object(
    alloc: Global,
    passed: &str,
    refusal: Option<Refusal>,
) -> Result<Vec<u8>, AllocError> {
    let Some(refusal) = refusal else {
        return begun(alloc, passed).into_line();
    };
    let mut object = begun(alloc, "refused");
    put_place(&mut object, refusal.side, refusal.place);
    put_reason(&mut object, refusal.reason);
    object.into_line()
}

fn from_here(alloc: Global, unasked: &str) -> Members {
    let mut object = begun(alloc, "from_here");
    object.text("unasked", unasked);
    object
}

fn begun(alloc: Global, what: &str) -> Members {
    let mut object = Members::new(alloc);
    object.text("what", what);
    object
}
