//! The commands of the program, over a shelf of files and a sink of octets.
#![tactic(auto)]

mod admitting;
mod admitting_laws;
mod capturing;
mod capturing_laws;
mod certifying;
mod certifying_laws;
mod commands;
mod curves;
mod dissecting;
mod dissecting_laws;
mod drilling;
mod drilling_laws;
mod files;
mod flushing;
mod judging;
mod judging_laws;
mod laws;
mod listing_laws;
mod listings;
mod outcomes;
mod packet_files;
mod preempts;
mod refusals;
mod replays;
mod statuses;

pub use admitting_laws::{admissions_are_read_back, due_admissions};
pub use capturing_laws::{captures_are_read_back, due_captures};
pub use certifying_laws::due_certificates;
pub use dissecting_laws::due_dissections;
pub use drilling_laws::{due_drills, one_summary};
pub use files::{file_text, network_named};
pub use flushing::flushed;
pub use judging::{Certified, Judged, judged_named};
pub use judging_laws::due_verdicts;
pub use laws::{due_answers, headline, one_trace};
pub use listing_laws::due_listings;
pub use preempts::preempt;
pub use statuses::{FileWord, Status, put_status};
