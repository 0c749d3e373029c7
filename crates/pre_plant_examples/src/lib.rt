//! Worked examples of generated plants, beside digests that were worked out apart from the program.
#![tactic(auto)]

#[cfg(test)]
mod digests;
