//! Histories: the events of a run, the rules that make a history legal, and laws of legal histories.
#![tactic(auto)]

mod events;
mod laws;
mod written;

pub use events::{Event, Outcome, What};
pub use laws::{
    active_is_told, arcs_are_links, arrivals_are_read, ends_are_read, entries_are_read,
    events_before_their_end, expiries_are_read, express_frames_begin, histories_go_on,
    idle_moments, legal_histories_are_cut, mpackets_in_order, octets_stay, one_history,
    queries_stay, small_histories_are_legal, starts_are_decided, starts_are_read, starts_stay,
    tests_are_decided, turns_are_kept, user_frames_are_no_lldp_frames, wants_stay,
};
pub use written::events_are_written;
