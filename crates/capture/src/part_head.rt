//! The head of a part of a run.

ghost use Rattle.std.specs.Prelude.{◌≡◌};
ghost use Rattle.capture.specs.Reading.{part_head_at, part_nodes_at};

use crate::address::address_of;
use crate::part::{after, cut_at};

// The addresses of two nodes, where the text ends in `part`.
#[tactic(auto, unfolding(crate::specs::Reading::part_nodes_at))]
fn part_nodes_of(text: &[u8]) -> Option<(u16, u16)>
    ensures { result ≡ part_nodes_at text.now }
{
    let (own, rest) = cut_at(text, b' ')?;
    let (peer, word) = cut_at(rest, b' ')?;
    let own = address_of(own)?;
    let peer = address_of(peer)?;
    if word != b"part".as_slice() {
        return None;
    }
    Some((own, peer))
}

/// The own node's address and its peer's (the area times 1,024, plus the node), as the head `ddcap 4 OWN PEER part` of a part of a run spells
/// them; the line is given without its LF. `None` where it is no such head: `ddcap 4 1.1 1.2 part` gives 1025 and 1026, `ddcap 4 1.1 1.2` none.
#[tactic(auto, unfolding(crate::specs::Reading::part_head_at))]
pub fn part_head_of(line: &[u8]) -> Option<(u16, u16)>
    ensures { result ≡ part_head_at line.now }
{
    part_nodes_of(after(line, b"ddcap 4 ")?)
}
