//! What both ends show where a record is refused.

ghost use Rattle.std.specs.Prelude.{◌≡◌, ◌++◌, IfOk, OnOk};
ghost use Rattle.why.specs.inner.Ends as spec;

use nsp_link::LinkView;
use pair_judge::SideEnd;
use side_words::link_line::is_live;
use side_words::state_line::StateLine;
use std::alloc::{AllocError, Global};
use wire_base::Side;

/// This end, of this side, as it was before the refused record.
pub fn state_at(side: Side, end: &SideEnd) -> StateLine
    ensures { result ≡ spec.state_by side end.now }
{
    StateLine {
        side,
        records: end.records(),
        station: end.station(),
        sent: end.sent(),
        front: end.front(),
    }
}

/// The live links of this end as they were before the refused record, in the order in which they began; with queues also those that have ended, of
/// which something waits. Fails for want of memory alone.
pub fn live_links(alloc: Global, end: &SideEnd) -> Result<Vec<LinkView>, AllocError>
    ensures { IfOk result (λ live. live.items ≡ spec.live_by end.now) }
{
    let mut live = Vec::new(alloc);
    for number in 0..usize::MAX {
        let Some(link) = end.link(number) else {
            return Ok(live);
        };
        push_live(&mut live, link)?;
    }
    // No memory holds so many links.
    Err(AllocError)
}

// Keeps a link that is live, or of which something waits.
fn push_live(live: &mut Vec<LinkView>, link: LinkView) -> Result<(), AllocError>
    ensures { OnOk result (live.new.items ≡ live.old.items ++ spec.if_live link) }
{
    if is_live(link.port.phase) || link.queue.waits.is_some() {
        live.push(link)?;
    }
    Ok(())
}
