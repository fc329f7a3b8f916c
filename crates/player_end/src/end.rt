//! One end of the line.

ghost use Rattle.std.specs.Prelude.{◌≡◌, Err, OnOk, IfOk, IfErr};
ghost use Rattle.dna_play.specs.StoredEnd.{new_stored_end};
ghost use Rattle.dna_play.specs.StoredPlay as stored;
ghost use Rattle.player_end.specs.Stepping.{StopMeans};

mod receiving;
mod sending;
mod user;

use crate::fault::StepFault;
use crate::given_piece::GivenPiece;
use crate::held_packet::HeldPacket;
use crate::link_ends::LinkEnds;
use crate::station_end::StationEnd;
use capture_record::MAX_HINT;
use dna_station::Head;
use std::alloc::{AllocError, Global};
use std::marker::Model;
use wire_base::Window;

/// One end of the line, as its node keeps it: its station and its links, each with what it owes; how many link addresses it has given, and how
/// many units of the other end came or were lost.
///
/// A step answers `BadStep` where it breaks its rule, which is given at each, or where its record would have no line in a capture; `Full`
/// where it needs a link address and all 65,535 are given, which is asked after that; and `OutOfMemory` where memory was refused. Memory
/// is asked for after both, except for a message that becomes whole and is too long: that shows only afterwards. After any of them
/// neither the end nor what was put after the text is of any use.
#[derive(Drop)]
pub struct End<W: Window<HeldPacket, 256> + Drop, V: Window<GivenPiece, 4096> + Drop> {
    head: Head,
    station: StationEnd<W>,
    links: LinkEnds<V>,
    addresses: u16,
    passed: u64,
    alloc: Global,
}

impl<W: Window<HeldPacket, 256> + Drop, V: Window<GivenPiece, 4096> + Drop> Model for End<W, V> {
    ghost use Rattle.dna_play.specs.StoredEnd.{StoredEnd};
    ghost use Rattle.player_end.specs.inner.Index.{live_of};

    ghost Value = { StoredEnd };

    ghost view = { λ e. record { head = e.head; station = e.station; links = live_of e.links; addresses = e.addresses; passed = e.passed } };
}

impl<W: Window<HeldPacket, 256> + Drop, V: Window<GivenPiece, 4096> + Drop> End<W, V> {
    /// Before any step, with the addresses of its head. It takes the memory that the window of its station takes.
    pub fn new(alloc: Global, head: Head) -> Result<Self, AllocError>
        ensures { IfOk result (λ end. end ≡ new_stored_end head) }
    {
        Ok(End {
            head,
            station: StationEnd::new(alloc)?,
            links: LinkEnds::new(alloc),
            addresses: 0,
            passed: 0,
            alloc,
        })
    }

    /// The next unit is lost. `BadStep`: its number has no line in a capture. Takes no memory.
    pub fn lose(&mut self) -> Result<(), StepFault>
        ensures ok { OnOk result (stored.loses self.old ≡ stored.silent self.new) }
        ensures stop { IfErr result (λ fault. StopMeans (stored.loses self.old) fault) }
        ensures memory { result ≡ Err StepFault.OutOfMemory → ⊥ }
    {
        if self.passed > MAX_HINT {
            return Err(StepFault::BadStep);
        }
        self.passed += 1;
        Ok(())
    }
}
