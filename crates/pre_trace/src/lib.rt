//! Traces: the text of a history, its lines read back as events, and what watches the events of a run.
#![tactic(auto)]

mod laws;
mod reading;
mod summaries;
mod summary_lines;
mod tallies;
mod text;
mod values;
mod watchers;
mod words;

pub use laws::{closings_are_few, event_reads_back, lines_tell_events, one_told_history};
pub use pre_history::{
    Event, Outcome, What, active_is_told, arcs_are_links, events_are_written,
    events_before_their_end, idle_moments, mpackets_in_order, one_history, queries_stay,
    small_histories_are_legal, tests_are_decided, turns_are_kept,
};
pub use reading::read_event;
pub use summaries::{Figures, Summary};
pub use summary_lines::put_summary;
pub use text::put_event;
pub use watchers::{TraceWatcher, Watcher};
pub use words::EventFault;

#[cfg(test)]
mod tests;
