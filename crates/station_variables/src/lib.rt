//! What any node keeps of its station (DDCMP 4.1, station variables, data transfer): its state, its numbers modulo 256, and the packets that
//! are not acknowledged.
//!
//! The judge's station (`ddcmp_station`) and the player's ends (`player_end`) are built on it. They differ in what is kept beside a packet, and in
//! what its bytes are kept in; so it is generic in both. It judges nothing and owes nothing.
#![tactic(auto)]

mod held_packet;
mod packet_bytes;
mod variables;

pub use held_packet::HeldPacket;
pub use packet_bytes::PacketBytes;
pub use variables::StationVariables;
