//! One step of a script: what one end of the line does.

ghost use Rattle.std.specs.Prelude.{◌≡◌, ◌≤◌, ℕ, List};
ghost use Rattle.capture_record.specs.declared.limit.TheConstants.{MAX_MESSAGE as MOST};
ghost use Rattle.dna_play.specs.Script.{is_of_three};
ghost use Rattle.dna_play.specs.ScriptText.{most_bytes};
ghost use Rattle.pair_player.specs.Step.{line_with, plain, step_with, view_of_line};

use capture_record::{MAX_MESSAGE, MAX_UNIT};
use wire_base::Side;

/// What an end does, or what becomes of the next unit that is on the line to it, except for its message or noise, which is kept beside it.
/// It is small and lends nothing.
///
/// Addresses of links are from 1 to 65,535: `link` is one of this end, `partner` one of the other end.
#[derive(Clone, Copy, PartialEq, Eq)]
pub enum Step {
    /// The user starts the station.
    Start,
    /// The user halts the station.
    Halt,
    /// The node starts anew.
    Boot,
    /// The station's timer runs out.
    Timer,
    /// The end sends one unit.
    Send,
    /// The next unit comes.
    Deliver,
    /// The next unit comes, and there is no buffer for its packet.
    Refuse,
    /// The next unit comes, and its packet is kept, and lost before the links meet it.
    Drop,
    /// The next unit is lost.
    Lose,
    /// The next unit comes with one byte changed.
    Damage {
        /// The place of the byte, counted from 0: at most 999,999,999,999,999,999.
        place: u64,
        /// What the byte is changed with, by exclusive or: at most 999,999,999,999,999,999.
        value: u64,
    },
    /// The bytes beside it come, at most 16,393, and nobody sent them; the next unit stays on the line.
    Noise,
    /// The user opens a link.
    Open,
    /// The user accepts the call of the partner's link.
    Accept {
        partner: u16,
    },
    /// The user rejects the call of the partner's link.
    Reject {
        partner: u16,
    },
    /// The user hands in the message beside it, of at most 65,535 bytes.
    In {
        link: u16,
    },
    /// The user closes a link.
    Close {
        link: u16,
    },
    /// The user gives up the call of a link.
    Abort {
        link: u16,
    },
    /// The link's timer runs out.
    Retry {
        link: u16,
    },
}

impl Step {
    /// How many bytes may be kept beside it.
    pub fn most(self) -> usize
        ensures most { result ≡ most_bytes (plain self) }
        ensures room { result ≤ MOST }
    {
        match self {
            Step::Noise => MAX_UNIT,
            Step::Start
            | Step::Halt
            | Step::Boot
            | Step::Timer
            | Step::Send
            | Step::Deliver
            | Step::Refuse
            | Step::Drop
            | Step::Lose
            | Step::Damage { .. }
            | Step::Open
            | Step::Accept { .. }
            | Step::Reject { .. }
            | Step::In { .. }
            | Step::Close { .. }
            | Step::Abort { .. }
            | Step::Retry { .. } => MAX_MESSAGE,
        }
    }

    /// Whether formats 1 and 2 have no line for its record.
    pub fn is_of_three(self) -> bool
        ensures { (bytes : List ℕ) → result ≡ is_of_three (step_with self bytes) }
    {
        match self {
            Step::Boot | Step::Drop | Step::Abort { .. } => true,
            Step::Start | Step::Halt | Step::Timer | Step::Send | Step::Deliver => false,
            Step::Refuse | Step::Lose | Step::Damage { .. } | Step::Noise | Step::Open => false,
            Step::Accept { .. } | Step::Reject { .. } | Step::In { .. } => false,
            Step::Close { .. } | Step::Retry { .. } => false,
        }
    }
}

/// One line of a script after its head. Its message or noise is lent by the reader.
#[derive(Clone, Copy, PartialEq, Eq)]
pub struct ScriptStep<'a> {
    /// The end that the step is of.
    pub side: Side,
    pub step: Step,
    /// The message or the noise; no bytes beside any other step.
    pub bytes: &'a [u8],
}

/// A line of a script except for its message or noise.
#[derive(Clone, Copy, PartialEq, Eq)]
pub struct LineEntry {
    pub side: Side,
    pub step: Step,
}

impl LineEntry {
    /// The line's step, with these bytes. Takes no memory.
    pub fn with(self, bytes: &[u8]) -> ScriptStep<'_>
        ensures { view_of_line result ≡ line_with self bytes.now }
    {
        let LineEntry { side, step } = self;
        ScriptStep { side, step, bytes }
    }
}
