//! Who is accused.

ghost use Rattle.std.specs.Prelude.{◌≡◌};
ghost use Rattle.pair_judge.specs.Reason.{reason_matter};
ghost use Rattle.why.specs.Refused as spec;

use crate::other_node::OtherNode;
use capture_record::Entry;
use pair_judge::{Accused, Blame, Matter, Reason};
use std::fmt;

/// By whose fault a record is refused. Printed as one word, or as `other end`: of a sender `sender`, and `user` also where it may be the node. Where
/// a queue would excuse it, `_without_queue` follows.
#[derive(Clone, Copy, Debug, PartialEq, Eq)]
pub enum Accusation {
    /// The node that sent the unit, or composed the packet.
    Sender,
    /// The other node, which sent what came, or heads that do not pair.
    OtherSender,
    /// The hints, or captures that do not pair.
    Hints,
    /// The line, or captures that do not pair.
    Line,
    /// What the side says of itself; nothing is said against the other one.
    Claim,
    /// Neither side: the protocol can't tell two messages apart.
    Nobody,
    /// The node's user.
    User,
    /// The node's user, or the node if it started by itself.
    Starter,
    /// The node's user, or the node if it chose the address of the link.
    Chooser,
    /// Of one end alone: the other end, in what came of it.
    OtherEnd,
    /// Neither side: nodes with a queue between NSP and DDCMP make the pair.
    Queue,
    /// Neither side: such a node does this where a DC waits in its queue.
    DcWaited,
    /// The node that sent the unit, or composed the packet, unless it has such a queue.
    SenderUnlessQueue,
    /// The node's user, unless the node has such a queue.
    UserUnlessQueue,
    /// Of one end alone: the other end, unless a node has such a queue.
    OtherEndUnlessQueue,
    /// Neither side: the recording begins in the middle of a running line.
    Running,
    /// Neither side: the packet names another node, so the line may lead to a router.
    OtherNode(OtherNode),
}

/// What is known of nodes with a queue between NSP and DDCMP at a refused record.
#[derive(Clone, Copy, PartialEq, Eq)]
pub enum Excuse {
    /// They are refused at this record too, or no queue explains such a reason.
    Refused,
    /// This record may be one of such nodes.
    Perhaps,
    /// They make the pair.
    Accepted,
    /// They are refused, but this record is one of a call that a DC ended, which may have waited in a queue behind a CI that came again.
    DcWaited,
}

impl Excuse {
    /// The same of one end: that it passes by itself does not show a run of such nodes.
    pub fn of_end(self) -> Excuse {
        match self {
            Excuse::Accepted => Excuse::Perhaps,
            excuse => excuse,
        }
    }
}

impl Accusation {
    /// Who is accused where a record of this entry is refused for this reason.
    pub fn of(reason: Reason, entry: Entry) -> Accusation
        ensures { result ≡ spec.accuses reason entry }
    {
        match reason.blame() {
            Blame::Sender => Accusation::Sender,
            Blame::SenderOrHeads => Accusation::of_nodes(entry),
            Blame::SenderOrUser => Accusation::of_link(entry),
            Blame::Hints => Accusation::Hints,
            Blame::LineOrCaptures => Accusation::Line,
            Blame::Claim => Accusation::Claim,
            Blame::Nobody => Accusation::Nobody,
            Blame::Starter => Accusation::Starter,
            Blame::Chooser => Accusation::Chooser,
        }
    }

    /// Who is accused where a record of one end alone is refused for this reason, by this end's fault or the other's.
    pub fn of_end(accused: Accused, reason: Reason, entry: Entry) -> Accusation
        ensures { result ≡ spec.end_accuses accused reason entry }
    {
        match accused {
            Accused::ThisEnd => Accusation::of(reason, entry),
            Accused::OtherEnd => Accusation::OtherEnd,
        }
    }

    /// Who is accused where the table of reasons says this: nobody, where the recording has not told yet (`has_begun`) in which state the side's line
    /// was, or which links it had, and the rule asks for that; where a queue may explain such a reason, whoever is left by what is known of that; and
    /// nobody, where the packet names another node.
    pub fn knowing(
        self,
        reason: Reason,
        has_begun: bool,
        excuse: Excuse,
        other: Option<OtherNode>,
    ) -> Accusation
        ensures { result ≡ spec.accused_by (reason_matter reason) has_begun excuse other self }
    {
        match reason.matter() {
            Matter::LinkNow => self.excused(excuse).if_begun(has_begun),
            Matter::State => self.if_begun(has_begun),
            Matter::Station => self.if_begun(has_begun),
            Matter::Response => self,
            Matter::Period => self,
            Matter::Link => self,
            Matter::Soundness => self,
            Matter::Hints => self,
            Matter::Passage => self,
            Matter::Packet => self,
            Matter::Nodes => self.naming(other),
            Matter::Nsp => self,
        }
    }

    fn if_begun(self, has_begun: bool) -> Accusation
        ensures { result ≡ spec.if_begun has_begun self }
    {
        if has_begun {
            return self;
        }
        Accusation::Running
    }

    // The same where this is known of nodes with queues.
    fn excused(self, excuse: Excuse) -> Accusation
        ensures { result ≡ spec.excused excuse self }
    {
        match excuse {
            Excuse::Refused => self,
            Excuse::Perhaps => self.unless_queue(),
            Excuse::Accepted => Accusation::Queue,
            Excuse::DcWaited => Accusation::DcWaited,
        }
    }

    fn unless_queue(self) -> Accusation
        ensures { result ≡ spec.unless_queue self }
    {
        match self {
            Accusation::Sender => Accusation::SenderUnlessQueue,
            Accusation::User => Accusation::UserUnlessQueue,
            Accusation::OtherEnd => Accusation::OtherEndUnlessQueue,
            accusation => accusation,
        }
    }

    // What came was sent by the other node, and read by the heads of both.
    fn of_nodes(entry: Entry) -> Accusation
        ensures { result ≡ spec.accuses_nodes entry }
    {
        match entry {
            Entry::Received { .. } => Accusation::OtherSender,
            _ => Accusation::Sender,
        }
    }

    fn of_link(entry: Entry) -> Accusation
        ensures { result ≡ spec.sender_or_user (spec.is_of_user entry) }
    {
        if is_of_user(entry) {
            return Accusation::User;
        }
        Accusation::Sender
    }
}

impl fmt::Display for Accusation {
    ghost use Rattle.std.specs.Prelude.{Some};

    ghost output = { λ accusation. Some (spec.accusation_name accusation) };

    fn fmt<W: fmt::Write>(&self, f: &mut fmt::Formatter<W>) -> fmt::Result {
        match self {
            Accusation::Sender | Accusation::OtherSender => f.write_str("sender"),
            Accusation::Hints => f.write_str("hints"),
            Accusation::Line => f.write_str("line"),
            Accusation::Claim => f.write_str("claim"),
            Accusation::Nobody | Accusation::Queue => f.write_str("nobody"),
            Accusation::DcWaited | Accusation::Running => f.write_str("nobody"),
            Accusation::OtherNode(_) => f.write_str("nobody"),
            Accusation::User | Accusation::Starter | Accusation::Chooser => f.write_str("user"),
            Accusation::OtherEnd => f.write_str("other end"),
            Accusation::SenderUnlessQueue => f.write_str("sender_without_queue"),
            Accusation::UserUnlessQueue => f.write_str("user_without_queue"),
            Accusation::OtherEndUnlessQueue => f.write_str("other_end_without_queue"),
        }
    }
}

// Whether the record of this entry is a user's (`u`).
fn is_of_user(entry: Entry) -> bool
    ensures { result ≡ spec.is_of_user entry }
{
    match entry {
        Entry::Sent | Entry::Received { .. } | Entry::Noise | Entry::Composed => false,
        _ => true,
    }
}
