//! What is said of the records of a capture: what the bytes of one say, layer by layer, in rows and as JSON; and in which lines the links of a side
//! began and ended. It judges nothing, and knows no station and no variables of a link.
#![tactic(auto)]

mod ack_words;
mod calls;
mod damage_words;
mod event_words;
mod field_words;
pub mod layers;
pub mod lines;
pub mod nsp_words;
pub mod packet_words;
pub mod record;
mod record_told;
pub mod side_past;
pub mod unit_words;
pub mod words;
pub mod wrapped;
