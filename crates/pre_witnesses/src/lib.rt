//! Legal histories that are told event by event: a frame that is cut, and a link that is verified.
#![tactic(auto)]

mod laws;

pub use laws::{a_frame_is_cut, a_link_is_verified};
