//! Node addresses.

ghost use Rattle.std.specs.Prelude.{◌≡◌, ◌↔◌, IsTrue, IfSome};
ghost use Rattle.capture.specs.Reading.{address_at};
ghost use Rattle.capture.specs.Range.{IsNode};

use crate::number::positive_of;
use crate::part::cut_at;

/// Whether this is a node address: an area from 1 to 63 times 1,024, and a node from 1 to 1,023.
/// 1.1 is 1,025. Takes no memory.
pub fn is_node(address: u16) -> bool
    ensures { IsTrue result ↔ IsNode address }
{
    address >= 1024 && address % 1024 != 0
}

/// The node address that the text spells as `area.node`. `1.1` and `63.1023` are addresses; `0.1`,
/// `1.0`, `64.1`, `1.1024`, `01.1` and `1` are none.
#[tactic(auto, unfolding(crate::specs::Reading::address_at))]
pub fn address_of(text: &[u8]) -> Option<u16>
    ensures value { result ≡ address_at text.now }
    ensures node { IfSome result IsNode }
{
    let (area, node) = cut_at(text, b'.')?;
    let area = positive_of(area, 63)?;
    let node = positive_of(node, 1023)?;
    Some((area * 1024 + node) as u16)
}
