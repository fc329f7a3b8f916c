//! What is shown of the variables besides.

ghost use Rattle.std.specs.Prelude.{◌≡◌, length};

use super::StationVariables;
use crate::{HeldPacket, PacketBytes};
use wire_base::Window;

impl<T: Copy, B: PacketBytes, W: Window<HeldPacket<T, B>, 256>> StationVariables<T, B, W> {
    /// A, the highest number acknowledged, 0 to 255; while there is none, 0.
    pub fn acknowledged(&self) -> u8
        ensures { result ≡ self.now.acknowledged }
    {
        self.held.first().value() as u8
    }

    /// How many packets are outstanding, 0 to 255: those with the numbers A + 1 to N.
    pub fn outstanding(&self) -> usize
        ensures { result ≡ length self.now.held }
    {
        self.held.len()
    }
}
