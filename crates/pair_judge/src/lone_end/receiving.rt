//! A receipt at an end whose other side is not known: what came is taken as what the other end sent.

ghost use Rattle.std.specs.Prelude.{◌≡◌, ◌+◌, ◌^◌, ◌<◌, ◌≤◌, IfOk};
ghost use Rattle.capture_record.specs.Fates.{is_met};
ghost use Rattle.ddcmp_msg.specs.Message.{view};
ghost use Rattle.ddcmp_msg.specs.Reading.{reading};
ghost use Rattle.dna_node.specs.Alone as alone;
ghost use Rattle.dna_station.specs.WireStation.{load};
ghost use Rattle.pair_judge.specs.EndJudged.{accused_view};
ghost use Rattle.pair_judge.specs.inner.LoneEnd.{CameIs, IfCameFails, MeetsIs, SoundIs};

use crate::end_verdict::Accused;
use crate::layers::SideLayers;
use crate::step_fault::StepFault;
use crate::top::Top;
use capture_record::Fate;
use ddcmp_msg::{Message, Reading, read_unit};
use ddcmp_station::Arrival;
use dna_station::{StepRefusal, Tag};
use std::alloc::AllocError;

// What is known of a unit whose sender is not.
const UNKNOWN: Tag = Tag {
    period: 0,
    partner: None,
};

/// What became of a receipt.
#[derive(Clone, Copy)]
pub enum Came {
    /// It was made, of a unit that came sound or damaged.
    Done {
        damaged: bool,
    },
    /// It can't be made.
    Fails {
        accused: Accused,
        refusal: StepRefusal,
    },
}

/// Receives these bytes. It fails, in this order: by the other end, where they are no message of a right one in this state; by this end, as the
/// station refuses; and, of a packet that is taken, by the other end. An error: there is no memory for what the links keep of it.
pub fn receive<T: Top>(
    layers: &mut SideLayers,
    fate: Fate,
    bytes: &[u8],
) -> Result<Came, AllocError>
    requires { load layers.old.station < 2 ^ 63 }
    ensures came { IfOk result (λ came. CameIs T.top came layers.old layers.new fate (reading bytes.now)) }
    ensures still { IfOk result (λ came. IfCameFails came (layers.new ≡ layers.old)) }
    ensures load { load layers.new.station ≤ load layers.old.station + 1 }
{
    match read_unit(bytes) {
        Reading::Sound(message) => receive_sound::<T>(layers, fate, message),
        Reading::HeaderBad => met(T::arrived_unknown(layers, Arrival::HeaderBad, fate), true),
        Reading::DataBad => met(T::arrived_unknown(layers, Arrival::DataBad, fate), true),
        Reading::Malformed(_) => Ok(Came::Fails {
            accused: Accused::OtherEnd,
            refusal: StepRefusal::NotAMessage,
        }),
    }
}

// A sound message comes.
fn receive_sound<T: Top>(
    layers: &mut SideLayers,
    fate: Fate,
    message: Message,
) -> Result<Came, AllocError>
    requires { load layers.old.station < 2 ^ 63 }
    ensures came { IfOk result (λ came. SoundIs T.top came layers.old layers.new fate (view message.entry)) }
    ensures still { IfOk result (λ came. IfCameFails came (layers.new ≡ layers.old)) }
    ensures load { load layers.new.station ≤ load layers.old.station + 1 }
{
    T::shows_alone();
    if let Some(refusal) = T::wrong_unit(layers, &message) {
        return Ok(by_the_other(refusal));
    }
    let Some(refusal) = wrong_if_met::<T>(layers, fate, &message) else {
        return met(
            T::arrived_unknown(layers, Arrival::Sound(message, UNKNOWN), fate),
            false,
        );
    };
    match T::may_arrive_unknown(layers, Arrival::Sound(message, UNKNOWN), fate) {
        Ok(()) => Ok(by_the_other(refusal)),
        Err(first) => met(Err(StepFault::Refused(first)), false),
    }
}

fn wrong_if_met<T: Top>(layers: &SideLayers, fate: Fate, message: &Message) -> Option<StepRefusal>
    ensures { result ≡ alone.if_met (is_met fate) (T.top.alone.wrong_taken layers.now (view message.now)) }
{
    if fate.is_met() {
        T::wrong_taken(layers, message)
    } else {
        None
    }
}

fn by_the_other(refusal: StepRefusal) -> Came
    ensures { result ≡ Came.Fails Accused.OtherEnd refusal }
{
    Came::Fails {
        accused: Accused::OtherEnd,
        refusal,
    }
}

// What became of what the layers met.
fn met(arrived: Result<(), StepFault>, damaged: bool) -> Result<Came, AllocError>
    ensures { IfOk result (λ came. MeetsIs came damaged arrived) }
{
    match arrived {
        Ok(()) => Ok(Came::Done { damaged }),
        Err(StepFault::Refused(refusal)) => Ok(Came::Fails {
            accused: accused_by(refusal),
            refusal,
        }),
        Err(StepFault::OutOfMemory) => Err(AllocError),
    }
}

// Who breaks the rule of a packet that comes: what the links refuse is the other end's.
fn accused_by(refusal: StepRefusal) -> Accused
    ensures { accused_view result ≡ alone.accused_by refusal }
{
    match refusal {
        StepRefusal::Links(_) => Accused::OtherEnd,
        StepRefusal::NotAMessage => Accused::ThisEnd,
        StepRefusal::HintOrder => Accused::ThisEnd,
        StepRefusal::Undetected => Accused::ThisEnd,
        StepRefusal::Station(_) => Accused::ThisEnd,
        StepRefusal::BadPacket => Accused::ThisEnd,
        StepRefusal::BadNsp => Accused::ThisEnd,
        StepRefusal::NotNoise => Accused::ThisEnd,
    }
}
