//! The packets of a DDCMP circuit (Routing Layer 2.0) and the NSP messages in them (NSP 4.0), read from bytes
//! and written as bytes, exactly. It never looks at what a message means: no link, no order, no number but its
//! own range; what the layouts leave to others is carried unread.
#![tactic(auto)]

mod ack_word;
mod fault;
mod fields;
mod header;
mod laws;
mod nsp;
mod packet;
mod reading_acks;
mod reading_nsp;
mod reading_packet;
mod writing_nsp;
mod writing_packet;

pub use ack_word::{AckQualifier, AckWord};
pub use fault::{NspFault, PacketFault};
pub use laws::{
    nsp_fault_is_final, nsp_is_spelled, nsp_is_unique, nsp_reads_back, packet_fault_is_final,
    packet_is_spelled, packet_is_unique, packet_reads_back,
};
pub use nsp::{
    ConnectAck, ConnectConfirm, ConnectInitiate, DataAck, DisconnectConfirm, DisconnectInitiate,
    LinkService, NoOperation, Nsp, OtherDataAck, Segment,
};
pub use packet::Packet;
pub use reading_nsp::read_nsp;
pub use reading_packet::read_packet;
pub use writing_nsp::write_nsp;
pub use writing_packet::write_packet;
