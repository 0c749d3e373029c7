//! How much a run keeps at once: frames inside a bridge, slots of a store that are out, and octets on wires.
#![tactic(auto)]

mod laws;

pub use laws::{
    arrivals_leave_room, mpackets_have_sizes, routes_pass_bridges, slots_are_counted,
    slots_are_spare, wires_have_room,
};
