//! The words for units of which nobody is accused, since their packets name another node: the line may lead to a router.

ghost use Rattle.std.specs.Prelude.{◌≡◌};
ghost use Rattle.tap_answer.specs.SparedWords as spec;

use beyond::{NodeKind, NodeWords};
use std::fmt;
use wire_base::Side;
use wire_tap::{Accusation, Accused, Exception, Passed};

/// The accusation, if it stays one.
pub(crate) fn blamed(accusation: Option<Accusation>) -> Option<Accusation>
    ensures { result ≡ spec.blamed accusation }
{
    if is_spared(accusation) {
        return None;
    }
    accusation
}

/// Whether nobody is accused of the unit, since its packet names another node.
pub(crate) fn is_spared(accusation: Option<Accusation>) -> bool
    ensures { result ≡ spec.is_spared accusation }
{
    match accusation {
        Some(found) => is_spared_by(found.unless),
        None => false,
    }
}

fn is_spared_by(unless: Option<Exception>) -> bool
    ensures { result ≡ spec.is_spared_by unless }
{
    match unless {
        Some(exception) => names_other(exception),
        None => false,
    }
}

fn names_other(exception: Exception) -> bool
    ensures { result ≡ spec.names_other exception }
{
    match exception {
        Exception::NamesOther { .. } => true,
        Exception::AcknowledgementQueue => false,
        Exception::IsRouter => false,
        Exception::GaveUpCall => false,
        Exception::OtherSubchannel => false,
    }
}

/// The units that are spared, and what both nodes say that they are, where one is; a line each, before which is an LF.
#[derive(Clone, Copy)]
pub(crate) struct AllSparedWords {
    pub(crate) accused: Accused,
}

impl fmt::Display for AllSparedWords {
    ghost use Rattle.std.specs.Prelude.{Some};

    ghost output = { λ words. Some (spec.all_spared_words words.accused) };

    fn fmt<W: fmt::Write>(&self, f: &mut fmt::Formatter<W>) -> fmt::Result {
        let Accused {
            a,
            b,
            kind_a,
            kind_b,
            ..
        } = self.accused;
        let of_a = SparedWords { accusation: a };
        let of_b = SparedWords { accusation: b };
        let inits = InitsWords {
            is_told: is_one_spared(a, b),
            kind_a,
            kind_b,
        };
        write!(f, "{of_a}{of_b}{inits}")
    }
}

fn is_one_spared(a: Option<Accusation>, b: Option<Accusation>) -> bool
    ensures { result ≡ spec.is_one_spared a b }
{
    if is_spared(a) {
        return true;
    }
    is_spared(b)
}

// A unit that is spared, since its packet names this node.
#[derive(Clone, Copy)]
struct SparedUnit {
    passed: Passed,
    node: u16,
}

impl fmt::Display for SparedUnit {
    ghost use Rattle.std.specs.Prelude.{Some};

    ghost output = { λ words. Some (spec.spared_unit_words words.passed words.node) };

    fn fmt<W: fmt::Write>(&self, f: &mut fmt::Formatter<W>) -> fmt::Result {
        let Passed { side, unit, line } = self.passed;
        let node = NodeWords { node: self.node };
        write!(
            f,
            "\nside {side} is not accused of its unit {unit} (line {line}): {node} is another node; if the line leads to a router, use tap --line"
        )
    }
}

// A unit, if it is spared.
#[derive(Clone, Copy)]
struct SparedWords {
    accusation: Option<Accusation>,
}

impl fmt::Display for SparedWords {
    ghost use Rattle.std.specs.Prelude.{Some};

    ghost output = { λ words. Some (spec.spared_words words.accusation) };

    fn fmt<W: fmt::Write>(&self, f: &mut fmt::Formatter<W>) -> fmt::Result {
        let Some(accusation) = self.accusation else {
            return Ok(());
        };
        let Some(exception) = accusation.unless else {
            return Ok(());
        };
        match exception {
            Exception::NamesOther { node } => {
                let unit = SparedUnit {
                    passed: accusation.passed,
                    node,
                };
                write!(f, "{unit}")
            }
            Exception::AcknowledgementQueue => Ok(()),
            Exception::IsRouter => Ok(()),
            Exception::GaveUpCall => Ok(()),
            Exception::OtherSubchannel => Ok(()),
        }
    }
}

// What the nodes say that they are.
#[derive(Clone, Copy)]
struct InitsWords {
    is_told: bool,
    kind_a: Option<NodeKind>,
    kind_b: Option<NodeKind>,
}

impl fmt::Display for InitsWords {
    ghost use Rattle.std.specs.Prelude.{Some};

    ghost output = { λ words. Some (spec.inits_words words.is_told words.kind_a words.kind_b) };

    fn fmt<W: fmt::Write>(&self, f: &mut fmt::Formatter<W>) -> fmt::Result {
        if self.is_told {
            let of_a = InitWords {
                side: Side::A,
                kind: self.kind_a,
            };
            let of_b = InitWords {
                side: Side::B,
                kind: self.kind_b,
            };
            return write!(f, "{of_a}{of_b}");
        }
        Ok(())
    }
}

// What the node of this side says that it is, if it does.
#[derive(Clone, Copy)]
struct InitWords {
    side: Side,
    kind: Option<NodeKind>,
}

impl fmt::Display for InitWords {
    ghost use Rattle.std.specs.Prelude.{Some};

    ghost output = { λ words. Some (spec.init_words words.side words.kind) };

    fn fmt<W: fmt::Write>(&self, f: &mut fmt::Formatter<W>) -> fmt::Result {
        let Some(kind) = self.kind else {
            return Ok(());
        };
        let side = self.side;
        write!(f, "\n{side}'s Init says: {kind}")
    }
}
