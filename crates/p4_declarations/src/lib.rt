//! The declarations that have no expression in them: which words spell one, and how these are read.
#![tactic(auto)]

mod emits;
mod fields;
mod gains;
mod package;
mod packets;
mod reading;
mod stored;
mod structs;
mod sums;
mod symbols;

pub use packets::{of_packet, packet_parameters};
pub use reading::flat;
