//! Laws of what frames do in a legal history: their routes, their fragments, their arrivals and their deliveries.
#![tactic(auto)]

mod laws;

pub use laws::{
    deliveries_are_of_frames_sent, files_give_routes, frames_arrive_whole, frames_come_on,
    frames_go_in_parts, frames_keep_to_routes, frames_take_arcs_once, legal_histories_are_written,
    spared_frames_are_received, undamaged_scripts_have_histories,
};
