//! Verification of a link (IEEE 802.3 clause 99.4.3): when verifies are sent, and whether it is active.
#![tactic(auto)]

mod laws;
mod states;
mod verifiers;

pub use laws::calls_law;
pub use states::VerifyState;
pub use verifiers::Verifier;

#[cfg(test)]
mod tests;
