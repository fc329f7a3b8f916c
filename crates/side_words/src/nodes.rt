//! Between which nodes a packet goes, in words.

use nsp_link::Nodes;
use record_words::packet_words::NodesWords;

/// Between which nodes it goes. Printed as `1.1 to 1.2`.
pub fn nodes_words(nodes: Nodes) -> NodesWords {
    let Nodes {
        source,
        destination,
    } = nodes;
    NodesWords {
        source,
        destination,
    }
}
