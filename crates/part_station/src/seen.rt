//! The data that a station sent in its capture.

ghost use Rattle.std.specs.Prelude.{◌≡◌, ◌<◌, length, slice_get, slice_set, IfOk, OnOk, OnErr};
ghost use Rattle.dna_station.specs.Station.{wire};
ghost use Rattle.part_station.specs.Open.{is_packet, nothing_seen};

use std::alloc::{AllocError, Global};
use std::marker::Model;
use wire_base::Copied;

// As many numbers as the line tells apart.
const NUMBERS: usize = 256;

/// Data with their number, which is above 0.
#[derive(Drop)]
pub struct SeenPacket {
    number: u64,
    body: Copied,
}

impl Model for SeenPacket {
    ghost use Rattle.part_station.specs.Open.{SeenPacket};

    ghost Value = { SeenPacket };

    ghost view = { λ p. record { number = p.number; body = p.body } };
}

/// The data last sent of each number modulo 256: what is outstanding is among them, if it was sent in the capture. It takes memory for 256
/// packets, and what those take that have more than 23 bytes.
#[derive(Drop)]
pub struct Seen {
    packets: Vec<SeenPacket>,
}

impl Model for Seen {
    ghost use Rattle.std.specs.Prelude.{◌≡◌, List, length};
    ghost use Rattle.part_station.specs.Open.{SeenPacket};

    ghost Value = { List SeenPacket };

    ghost view = { λ s. s.packets.items };

    ghost invariant = { λ s. length s.packets.items ≡ 256 };
}

impl Seen {
    /// None. `AllocError`: memory was refused.
    pub fn nothing(alloc: Global) -> Result<Seen, AllocError>
        ensures { IfOk result (λ seen. seen ≡ nothing_seen) }
    {
        let mut packets = Vec::with_capacity(alloc, NUMBERS)?;
        for _ in 0..NUMBERS {
            packets.push_reserved(SeenPacket {
                number: 0,
                body: Copied::none(),
            });
        }
        Ok(Seen { packets })
    }

    /// Whether data with this number may be these: they are where they were seen.
    pub fn may_be(&self, number: u64, body: &[u8]) -> bool
        ensures { result ≡ is_packet (slice_get self.now (wire number)) number body.now }
    {
        let packet = &self.packets[(number % 256) as usize];
        if packet.number == number {
            return body == packet.body.as_slice();
        }
        true
    }

    /// Data with this number were sent. `AllocError`: there is no memory for a copy of them, and nothing changes.
    pub fn put(&mut self, alloc: Global, number: u64, body: &[u8]) -> Result<(), AllocError>
        ensures ok { OnOk result (self.new ≡ slice_set self.old (wire number) (record { number = number; body = body.now })) }
        ensures err { OnErr result (self.new ≡ self.old) }
    {
        let body = Copied::of(alloc, body)?;
        self.packets[(number % 256) as usize] = SeenPacket { number, body };
        Ok(())
    }
}
