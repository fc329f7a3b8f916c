//! What the judge keeps beside a unit, and no byte of it tells.

use dna_links::LinkTag;
use dna_station::Tag;

/// What a unit was sent with: which start of its station it belongs to; and of a data message the tag that its packet got when it was
/// first sent.
#[derive(Clone, Copy)]
pub struct UnitTag {
    pub station: Tag,
    pub link: Option<LinkTag>,
}
