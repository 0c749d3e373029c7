//! What the ends of an arc that negotiates preemption keep of their link (IEEE 802.3 clauses 99.4 and
//! 79.3.7), and what it says in a history.
#![tactic(auto)]

mod links;
mod partners;
mod steps;

pub use links::Link;
pub use partners::Partner;
pub use steps::{
    adverts_are_read, adverts_are_sent, arrivals_over, calm_arcs, events_elsewhere,
    links_get_ready, other_begins, phases_elsewhere, quiet_ticks,
};

#[cfg(test)]
mod tests;
