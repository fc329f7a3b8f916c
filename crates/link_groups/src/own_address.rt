//! An own address, and its place among all.

ghost use Rattle.std.specs.Prelude.{◌≡◌, ◌<◌};

use wire_base::Side;

/// How many own addresses there are: 65,536 of each end.
pub(crate) const OWN_ADDRESSES: usize = 131_072;

const OF_ONE_END: usize = 65_536;

/// An address that one end gave to its links, 0 to 65,535; 0 stands for "names no link".
#[derive(Clone, Copy, Debug, PartialEq, Eq)]
pub struct OwnAddress {
    /// Whose address it is.
    pub side: Side,
    /// The address itself.
    pub address: u16,
}

impl OwnAddress {
    ghost use Rattle.link_groups.specs.Place.{place_of};

    /// Its place among all own addresses, from 0: first those of side A, then those of side B.
    pub(crate) fn place(self) -> usize
        ensures place { result ≡ place_of self }
        ensures within { result < OWN_ADDRESSES }
    {
        match self.side {
            Side::A => self.address as usize,
            Side::B => OF_ONE_END + self.address as usize,
        }
    }
}
