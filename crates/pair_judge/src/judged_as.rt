//! What is judged: which layers, of which nodes.

ghost use Rattle.std.specs.Prelude.{◌≡◌, true, false};

/// Which layers are judged, and whether nodes have queues.
#[derive(Clone, Copy, PartialEq, Eq)]
pub enum Layers {
    /// Stations with their links on top.
    Both,
    /// The same, of nodes with queues between NSP and DDCMP, by the links' rules for those (`dna_links`, `Queues`): such a node may send what it
    /// composed before it looked at a DI, or before its user closed. These rules allow just what a link can do that acts on what was kept for it, and
    /// composes what it sends, at any time between, each in order (`dna_queues`).
    Queued,
    /// Stations and line alone: a packet is any bytes and is not read, so that it may be one of another layer or of a third node; and the events of
    /// the links, `u open` to `u up`, may come anywhere and are not judged.
    Station,
}

/// What the captures of a pair are judged as.
#[derive(Clone, Copy)]
pub struct JudgedAs {
    /// Which layers.
    pub layers: Layers,
    /// Whether stations ask no period: each acts on what comes by its bytes, whatever start of the other station it belongs to. So a pair is judged
    /// on once it was refused for 13. The links ask for partners on (25).
    pub any_period: bool,
}

impl Layers {
    /// Nodes over these layers whose stations ask the period of what comes.
    pub fn of_period(self) -> JudgedAs
        ensures { result ≡ record { layers = self; any_period = false } }
    {
        JudgedAs {
            layers: self,
            any_period: false,
        }
    }

    /// Nodes over these layers whose stations ask no period.
    pub fn of_any_period(self) -> JudgedAs
        ensures { result ≡ record { layers = self; any_period = true } }
    {
        JudgedAs {
            layers: self,
            any_period: true,
        }
    }
}
