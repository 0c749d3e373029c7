//! mPackets, in which frames and their fragments cross a link (IEEE 802.3, clause 99).
#![tactic(auto)]

mod laws;
mod packets;
mod reading;
#[cfg(test)]
mod tests;
mod writing;

pub use laws::{
    frames_have_their_size, given_is_decided, later_arrivals, next_joins, next_open, one_count,
    one_given, one_mpacket, one_open, one_size, pieces_give_the_frame, pieces_in_a_row,
};
pub use packets::{Kind, MPacket};
pub use reading::{MFault, read_mpacket};
pub use writing::write_mpacket;
