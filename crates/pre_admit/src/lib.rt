//! A plan of express streams that takes in one stream more at a time, or says why it can't.
#![tactic(auto)]

mod admissions;
mod laws;
mod plans;
mod reasons;

pub use admissions::{Outcome, admit_all};
pub use laws::locality_law;
pub use plans::{NotAdmitted, Plan};
pub use reasons::Why;
