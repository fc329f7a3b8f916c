//! Laws of the two layouts: each function does nothing, and its contract is the law.

ghost use Rattle.std.specs.Prelude.{◌≡◌, ◌<◌, ℕ, List, Ok, slice_index, ◌≢◌, ◌++◌, Err};
ghost use Rattle.dna_packet.specs.declared.fault.PacketFault.{PacketFault};
ghost use Rattle.dna_packet.specs.declared.fault.PacketFault.TheVariants.{Short};
ghost use Rattle.dna_packet.specs.declared.fault.NspFault.{NspFault};
ghost use Rattle.dna_packet.specs.declared.fault.NspFault.TheVariants.{MissingField};
ghost use Rattle.dna_packet.specs.Packet.{PacketValue, packet_bytes, IsPacket};
ghost use Rattle.dna_packet.specs.ReadingPacket.{packet_at};
ghost use Rattle.dna_packet.specs.Nsp.{NspValue, nsp_bytes, IsNsp};
ghost use Rattle.dna_packet.specs.ReadingNsp.{nsp_at};

/// The bytes of a packet are read as that packet.
pub fn packet_reads_back()
    ensures { (p : PacketValue) → IsPacket p → packet_at (packet_bytes p) ≡ Ok p }
{}

/// What is read from bytes is a packet, and these are its bytes.
pub fn packet_is_spelled()
    ensures { (bytes : List ℕ) (p : PacketValue) → ((i : ℕ) → slice_index bytes i < 256) →
        packet_at bytes ≡ Ok p → IsPacket p × (bytes ≡ packet_bytes p) }
{}

/// A row of bytes is that of one packet.
pub fn packet_is_unique()
    ensures { (p q : PacketValue) → IsPacket p → IsPacket q → packet_bytes p ≡ packet_bytes q → p ≡ q }
{}

/// A fault other than [`crate::PacketFault::Short`] is decided by the first byte: no bytes that follow change it.
pub fn packet_fault_is_final()
    ensures { (bytes more : List ℕ) (fault : PacketFault) → fault ≢ Short →
        packet_at bytes ≡ Err fault → packet_at (bytes ++ more) ≡ Err fault }
{}

/// The bytes of a message are read as that message.
pub fn nsp_reads_back()
    ensures { (m : NspValue) → IsNsp m → nsp_at (nsp_bytes m) ≡ Ok m }
{}

/// What is read from bytes is a message, and these are its bytes.
pub fn nsp_is_spelled()
    ensures { (bytes : List ℕ) (m : NspValue) → ((i : ℕ) → slice_index bytes i < 256) →
        nsp_at bytes ≡ Ok m → IsNsp m × (bytes ≡ nsp_bytes m) }
{}

/// A row of bytes is that of one message.
pub fn nsp_is_unique()
    ensures { (m n : NspValue) → IsNsp m → IsNsp n → nsp_bytes m ≡ nsp_bytes n → m ≡ n }
{}

/// A fault other than [`crate::NspFault::MissingField`] is decided by the field at which it is found: no bytes
/// that follow change it.
pub fn nsp_fault_is_final()
    ensures { (bytes more : List ℕ) (fault : NspFault) → fault ≢ MissingField →
        nsp_at bytes ≡ Err fault → nsp_at (bytes ++ more) ≡ Err fault }
{}
