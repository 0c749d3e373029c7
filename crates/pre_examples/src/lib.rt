//! Worked examples: files and what they hold, listings and certificates, as worked out apart from the program.
#![tactic(auto)]

#[cfg(test)]
mod admissions;
#[cfg(test)]
mod captures;
#[cfg(test)]
mod certificates;
#[cfg(test)]
mod faults;
#[cfg(test)]
mod listings;
#[cfg(test)]
mod networks;
#[cfg(test)]
mod running;
#[cfg(test)]
mod streams;
#[cfg(test)]
mod verdicts;
