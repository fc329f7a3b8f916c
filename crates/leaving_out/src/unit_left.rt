//! What becomes of a unit, with its packet.

ghost use Rattle.std.specs.Prelude.{◌≡◌, IfOk};
ghost use Rattle.leaving_out.specs.Packets as spec;
ghost use Rattle.leaving_out.specs.Packets.{or_same};

use crate::leaving::Leaving;
use crate::packet_left::packet_left;
use ddcmp_msg::{Message, Reading, read_unit, write_unit};
use std::alloc::{AllocError, Global};
use wire_base::Side;

/// What becomes of a unit that this side sent, where it becomes another: `None` says that it stays as it is. A sound data message has its packet
/// changed, and both block checks made anew; the flags, RESP and NUM are kept.
pub(crate) fn unit_left(
    alloc: Global,
    leaving: &Leaving<'_>,
    sender: Side,
    unit: &[u8],
) -> Result<Option<Vec<u8>>, AllocError>
    ensures { IfOk result (λ left. or_same unit.now left ≡ spec.unit_left leaving.now sender unit.now) }
{
    match read_unit(unit) {
        Reading::Sound(
            Message::Data {
                flags,
                resp,
                num,
                body,
            },
        ) => {
            let Some(left) = packet_left(alloc, leaving, sender, body)? else {
                return Ok(None);
            };
            let message = Message::Data {
                flags,
                resp,
                num,
                body: &left,
            };
            Ok(Some(write_unit(alloc, &message)?))
        }
        _ => Ok(None),
    }
}
