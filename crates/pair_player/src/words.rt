//! Reading the words of a step's line.

ghost use Rattle.std.specs.Prelude.{◌≡◌, ◌≤◌, length, IfOk};
ghost use Rattle.std.specs.Option.{option_map};
ghost use Rattle.capture.specs.Reading.{must};
ghost use Rattle.capture_record.specs.declared.limit.TheConstants.{MAX_MESSAGE};
ghost use Rattle.pair_player.specs.Step.{plain};
ghost use Rattle.pair_player.specs.inner.Entries.{parted, told};
ghost use Rattle.pair_player.specs.inner.Reading.{damage_at, line_at, link_step_at, plain_at, step_at};

use crate::step::{LineEntry, Step};
use capture::{Departure, after, bytes_into, cut_at, link_of, message_of, number_of, side_of};
use capture_record::MAX_HINT;

// A step of one word.
#[tactic(auto, unfolding(crate::specs::inner::Reading::plain_at))]
fn plain_of(text: &[u8]) -> Option<Step>
    ensures { option_map plain result ≡ plain_at text.now }
{
    if text == b"start".as_slice() {
        return Some(Step::Start);
    }
    if text == b"halt".as_slice() {
        return Some(Step::Halt);
    }
    if text == b"boot".as_slice() {
        return Some(Step::Boot);
    }
    if text == b"timer".as_slice() {
        return Some(Step::Timer);
    }
    if text == b"send".as_slice() {
        return Some(Step::Send);
    }
    if text == b"deliver".as_slice() {
        return Some(Step::Deliver);
    }
    if text == b"refuse".as_slice() {
        return Some(Step::Refuse);
    }
    if text == b"drop".as_slice() {
        return Some(Step::Drop);
    }
    if text == b"lose".as_slice() {
        return Some(Step::Lose);
    }
    if text == b"open".as_slice() {
        return Some(Step::Open);
    }
    None
}

#[tactic(auto, unfolding(crate::specs::inner::Reading::damage_at))]
fn damage_of(text: &[u8]) -> Option<(u64, u64)>
    ensures { damage_at text.now ≡ must result }
{
    let (place, value) = cut_at(text, b' ')?;
    let place = number_of(place, MAX_HINT)?;
    let value = number_of(value, MAX_HINT)?;
    Some((place, value))
}

// A step of a link that has no message.
#[tactic(auto, unfolding(crate::specs::inner::Reading::link_step_at))]
fn link_step_of(text: &[u8]) -> Option<Step>
    ensures { link_step_at text.now ≡ must (option_map plain result) }
{
    if let Some(rest) = after(text, b"accept ") {
        let partner = link_of(rest)?;
        return Some(Step::Accept { partner });
    }
    if let Some(rest) = after(text, b"reject ") {
        let partner = link_of(rest)?;
        return Some(Step::Reject { partner });
    }
    if let Some(rest) = after(text, b"close ") {
        let link = link_of(rest)?;
        return Some(Step::Close { link });
    }
    if let Some(rest) = after(text, b"abort ") {
        let link = link_of(rest)?;
        return Some(Step::Abort { link });
    }
    if let Some(rest) = after(text, b"retry ") {
        let link = link_of(rest)?;
        return Some(Step::Retry { link });
    }
    None
}

// What the line says after the letter of its side, with the text of its BYTES, where it has any; `None` where it can be no step's.
#[tactic(auto, unfolding(crate::specs::inner::Reading::step_at))]
fn entry_of(text: &[u8]) -> Option<(Step, Option<&[u8]>)>
    ensures { step_at text.now ≡ told (option_map (λ parts. (parts.0, option_map (λ digits. digits.now) parts.1)) result) }
{
    if let Some(entry) = plain_of(text) {
        return Some((entry, None));
    }
    if let Some(rest) = after(text, b"in ") {
        let (link, digits) = message_of(rest)?;
        return Some((Step::In { link }, Some(digits)));
    }
    if let Some(digits) = after(text, b"noise ") {
        return Some((Step::Noise, Some(digits)));
    }
    if let Some(rest) = after(text, b"damage ") {
        let (place, value) = damage_of(rest)?;
        return Some((Step::Damage { place, value }, None));
    }
    let entry = link_step_of(text)?;
    Some((entry, None))
}

/// Reads the line's step in two parts: its entry, and its message or noise, which is written to the front of the room, with how many
/// bytes it has. The line is given without its LF.
///
/// `Syntax` where it spells no step; `TooLong` where it would spell one if there were not too many bytes. Takes no memory.
#[tactic(auto, unfolding(crate::specs::inner::Reading::line_at))]
pub fn line_into(line: &[u8], room: &mut [u8]) -> Result<(LineEntry, usize), Departure>
    requires { length room.old ≡ MAX_MESSAGE }
    ensures step { line_at line.now ≡ parted room.new result }
    ensures len { IfOk result (λ parts. parts.1 ≤ MAX_MESSAGE) }
    ensures room { length room.new ≡ MAX_MESSAGE }
{
    let Some((side, text)) = side_of(line) else {
        return Err(Departure::Syntax);
    };
    let Some((step, digits)) = entry_of(text) else {
        return Err(Departure::Syntax);
    };
    let Some(digits) = digits else {
        return Ok((LineEntry { side, step }, 0));
    };
    let len = bytes_into(digits, step.most(), room)?;
    Ok((LineEntry { side, step }, len))
}
