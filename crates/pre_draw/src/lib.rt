//! The commands of the program that draws pictures, over a shelf of files and a sink of octets.
#![tactic(auto)]

mod bounds;
mod commands;
mod pictures;
mod queues;
mod runs;
mod statuses;
mod traces;

pub use pictures::preempt_picture;
pub use statuses::put_picture_status;
