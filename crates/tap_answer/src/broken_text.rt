//! The words for what shows that a recording is not whole, or not of this line.

use std::fmt;
use wire_base::Side;
use wire_tap::{Broken, Passed};

// The bytes of a side that were skipped.
#[derive(Clone, Copy)]
struct StrayWords {
    side: Side,
    bytes: u64,
}

impl fmt::Display for StrayWords {
    ghost use Rattle.std.specs.Prelude.{Some};
    ghost use Rattle.tap_answer.specs.AccusedWords.{stray_words};

    ghost output = { λ words. Some (stray_words words.side words.bytes) };

    fn fmt<W: fmt::Write>(&self, f: &mut fmt::Formatter<W>) -> fmt::Result {
        let (side, bytes) = (self.side, self.bytes);
        write!(
            f,
            "{bytes} bytes of side {side} that belong to no unit were skipped"
        )
    }
}

// A unit, as it is named in a sentence.
#[derive(Clone, Copy)]
struct UnitOfWords {
    passed: Passed,
}

impl fmt::Display for UnitOfWords {
    ghost use Rattle.std.specs.Prelude.{Some};
    ghost use Rattle.tap_answer.specs.AccusedWords.{unit_of_words};

    ghost output = { λ words. Some (unit_of_words words.passed) };

    fn fmt<W: fmt::Write>(&self, f: &mut fmt::Formatter<W>) -> fmt::Result {
        let Passed { side, unit, line } = self.passed;
        write!(f, "side {side}'s unit {unit} (line {line})")
    }
}

// What was seen.
#[derive(Clone, Copy)]
struct SeenWords {
    broken: Broken,
}

impl fmt::Display for SeenWords {
    ghost use Rattle.std.specs.Prelude.{Some};
    ghost use Rattle.tap_answer.specs.AccusedWords.{seen_words};

    ghost output = { λ words. Some (seen_words words.broken) };

    fn fmt<W: fmt::Write>(&self, f: &mut fmt::Formatter<W>) -> fmt::Result {
        match self.broken {
            Broken::Begins { side } => write!(
                f,
                "side {side}'s recording begins in the middle of a running line, or side {side} began without a start"
            ),
            Broken::Skipped {
                side,
                bytes,
                before,
            } => {
                let stray = StrayWords { side, bytes };
                let unit = UnitOfWords { passed: before };
                write!(f, "{stray} before {unit}")
            }
            Broken::Damaged { passed } => {
                let unit = UnitOfWords { passed };
                write!(f, "the data of {unit} fail their block check")
            }
            Broken::Exchanged => {
                f.write_str("the packets of both sides have the addresses of the head exchanged")
            }
            Broken::NotBetween { side } => {
                write!(
                    f,
                    "no packet of side {side} is between the two nodes of the head"
                )
            }
        }
    }
}

// Of what nobody is accused.
#[derive(Clone, Copy)]
struct OfWords {
    is_after_others: bool,
}

impl fmt::Display for OfWords {
    ghost use Rattle.std.specs.Prelude.{Some};
    ghost use Rattle.tap_answer.specs.AccusedWords.{of_words};

    ghost output = { λ words. Some (of_words words.is_after_others) };

    fn fmt<W: fmt::Write>(&self, f: &mut fmt::Formatter<W>) -> fmt::Result {
        if self.is_after_others {
            return f.write_str(" of anything else");
        }
        Ok(())
    }
}

// What mends it.
#[derive(Clone, Copy)]
struct MendWords {
    broken: Broken,
}

impl fmt::Display for MendWords {
    ghost use Rattle.std.specs.Prelude.{Some};
    ghost use Rattle.tap_answer.specs.AccusedWords.{mend_words};

    ghost output = { λ words. Some (mend_words words.broken) };

    fn fmt<W: fmt::Write>(&self, f: &mut fmt::Formatter<W>) -> fmt::Result {
        match self.broken {
            Broken::Begins { .. } => f.write_str("record again from before the first STRT"),
            Broken::Skipped { .. } | Broken::Damaged { .. } => f.write_str("record again"),
            Broken::Exchanged => f.write_str("exchange them in the head"),
            Broken::NotBetween { .. } => {
                f.write_str("correct the head, or use tap --line if the line leads to a router")
            }
        }
    }
}

/// What was seen, that nobody is accused, or of nothing but what the lines before it name, and what mends it. No LF.
#[derive(Clone, Copy)]
pub(crate) struct BrokenWords {
    pub(crate) broken: Broken,
    pub(crate) is_after_others: bool,
}

impl fmt::Display for BrokenWords {
    ghost use Rattle.std.specs.Prelude.{Some};
    ghost use Rattle.tap_answer.specs.AccusedWords.{broken_words};

    ghost output = { λ words. Some (broken_words words.is_after_others words.broken) };

    fn fmt<W: fmt::Write>(&self, f: &mut fmt::Formatter<W>) -> fmt::Result {
        let seen = SeenWords {
            broken: self.broken,
        };
        let of = OfWords {
            is_after_others: self.is_after_others,
        };
        let mend = MendWords {
            broken: self.broken,
        };
        write!(f, "{seen}, so neither node is accused{of}: {mend}")
    }
}
