//! The head of a capture, as far as a node goes by it.

/// The two addresses in the head of a node's capture (Routing 2.0, node addresses: area times 1,024 plus node). Each node uses those of
/// its own head; the heads of a pair are not compared.
#[derive(Clone, Copy, Debug, PartialEq, Eq)]
pub struct Head {
    /// The address of the node whose capture it is.
    pub own: u16,
    /// The address of the node at the other end of the line.
    pub peer: u16,
}
