//! What became of the packet in a unit that came.

ghost use Rattle.std.specs.Prelude.{◌≡◌};
ghost use Rattle.capture_record.specs.Fates.{is_kept, is_met};

/// What became of the packet in a unit that came: nothing, or the node kept it; and what it kept may have been lost before its links met it.
#[derive(Clone, Copy, PartialEq, Eq)]
pub enum Fate {
    /// No packet was kept: the line `r`.
    NotKept,
    /// The packet was kept, and the links met it: the line `k`.
    Kept,
    /// The packet was kept, and lost before the links met it: the line `d`, which format 3 alone has.
    Dropped,
}

impl Fate {
    /// Whether the station kept the packet. Takes no memory.
    pub fn is_kept(self) -> bool
        ensures { result ≡ is_kept self }
    {
        match self {
            Fate::NotKept => false,
            Fate::Kept | Fate::Dropped => true,
        }
    }

    /// Whether the links met the packet. Takes no memory.
    pub fn is_met(self) -> bool
        ensures { result ≡ is_met self }
    {
        match self {
            Fate::NotKept | Fate::Dropped => false,
            Fate::Kept => true,
        }
    }
}
