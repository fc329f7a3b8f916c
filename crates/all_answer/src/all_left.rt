//! What is not judged any more of a pair, or of one end, after its refusals.

ghost use Rattle.std.specs.Prelude.{◌≡◌, true, not, List, IfOk};
ghost use Rattle.link_groups.specs.Groups.{AreGroupsOf, Binding};
ghost use Rattle.link_groups.specs.LeftOut.{AreWhole};
ghost use Rattle.all_answer.specs.AllLeft.{JudgesAll, Leaves, beyond_of};

use leaving_out::{Head, Leaving, heads_fit};
use link_groups::{Groups, LeftGroups, OwnAddress};
use pair_judge::{Matter, Reason};
use std::alloc::{AllocError, Global};

/// What a refusal for a reason leads to.
#[derive(Clone, Copy, PartialEq, Eq)]
pub enum Beyond {
    /// The judgement ends.
    Ends,
    /// From there on periods are not asked.
    AnyPeriod,
    /// From there on packets that can't be read are carried.
    UnreadPackets,
    /// From there on messages that can't be read are carried.
    UnreadMessages,
    /// The links that the record is about are left out, with all that are bound to them.
    Links,
}

impl Beyond {
    /// What a refusal for this reason leads to: of a station or of the line, to the end.
    pub fn of(reason: Reason) -> Beyond
        ensures { result ≡ beyond_of reason }
    {
        match reason.matter() {
            Matter::Soundness | Matter::Hints | Matter::Passage => Beyond::Ends,
            Matter::State | Matter::Response | Matter::Station => Beyond::Ends,
            Matter::Period => Beyond::AnyPeriod,
            Matter::Packet => Beyond::UnreadPackets,
            Matter::Nsp => Beyond::UnreadMessages,
            Matter::Nodes | Matter::LinkNow | Matter::Link => Beyond::Links,
        }
    }

    /// The line that is told after such a refusal, if one is.
    pub fn words(self) -> &'static str {
        match self {
            Beyond::AnyPeriod => "from here periods are not asked\n",
            Beyond::UnreadPackets => "from here packets that cannot be read are carried\n",
            Beyond::UnreadMessages => "from here messages that cannot be read are carried\n",
            Beyond::Ends | Beyond::Links => "",
        }
    }

    /// What is not asked any more, as a word of an object.
    pub fn unasked(self) -> Option<&'static str> {
        match self {
            Beyond::AnyPeriod => Some("periods"),
            Beyond::UnreadPackets => Some("packets"),
            Beyond::UnreadMessages => Some("messages"),
            Beyond::Ends | Beyond::Links => None,
        }
    }
}

/// What is not judged any more.
#[derive(Drop)]
pub struct NotJudged {
    left: LeftGroups,
    unread_packets: bool,
    unread_messages: bool,
    any_period: bool,
    head_of_a: Head,
    head_of_b: Head,
}

impl NotJudged {
    /// All is judged. Own addresses belong together as in these groups. The heads are those of both captures; of one end alone the other's is the
    /// same, seen from there.
    pub fn nothing(
        alloc: Global,
        groups: Groups,
        head_of_a: Head,
        head_of_b: Head,
    ) -> Result<NotJudged, AllocError>
        ensures { IfOk result (λ not_judged. JudgesAll groups not_judged) }
    {
        Ok(NotJudged {
            left: LeftGroups::new(alloc, groups)?,
            unread_packets: false,
            unread_messages: false,
            any_period: false,
            head_of_a,
            head_of_b,
        })
    }

    /// What is left out of the texts: of links the groups that [`NotJudged::leave`] left out, each as a whole, and no others.
    pub fn leaving(&self) -> Leaving<'_>
        ensures whole { (bindings : List Binding) → AreGroupsOf bindings self.now.left.labels → AreWhole bindings result.left_out.now }
        ensures groups { result.left_out.now ≡ self.now.left.left_out }
        ensures unread { (result.unread_packets ≡ self.now.unread_packets) × (result.unread_messages ≡ self.now.unread_messages) }
        ensures heads { (result.head_of_a ≡ self.now.head_of_a) × (result.head_of_b ≡ self.now.head_of_b) }
    {
        Leaving {
            left_out: self.left.left_out(),
            unread_packets: self.unread_packets,
            unread_messages: self.unread_messages,
            head_of_a: self.head_of_a,
            head_of_b: self.head_of_b,
        }
    }

    /// Whether both heads fit each other.
    pub fn heads_fit(&self) -> bool {
        heads_fit(&self.leaving())
    }

    /// Whether stations are not asked for periods any more.
    pub fn any_period(&self) -> bool
        ensures { result ≡ self.now.any_period }
    {
        self.any_period
    }

    /// From here on what a refusal leads to is not judged. `address` is that of the links which the refused record is about. Whether anything
    /// more is left out by it, so that the judgement goes on.
    pub fn leave(&mut self, beyond: Beyond, address: Option<OwnAddress>) -> bool
        ensures { Leaves beyond address self.old self.new result }
    {
        match beyond {
            Beyond::Ends => false,
            Beyond::AnyPeriod => is_new(&mut self.any_period),
            Beyond::UnreadPackets => is_new(&mut self.unread_packets),
            Beyond::UnreadMessages => is_new(&mut self.unread_messages),
            Beyond::Links => match address {
                Some(address) => self.left.leave(address),
                None => false,
            },
        }
    }
}

// Sets what may be set already; whether it was not.
fn is_new(flag: &mut bool) -> bool
    ensures set { flag.new ≡ true }
    ensures was { result ≡ not flag.old }
{
    let was = *flag;
    *flag = true;
    !was
}
