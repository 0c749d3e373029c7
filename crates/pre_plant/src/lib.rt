//! Large plants from a number: a network, its streams, and a script of sends, losses and damages.
#![tactic(auto)]

mod draws;
mod laws;
mod lines;
mod networks;
mod plants;
mod routes;
mod rows;
mod sends;

pub use laws::plants_are_one;
pub use plants::plant;
