//! Worked examples of runs with fragments, losses, damage and negotiation: their traces, as worked out apart from the program. Lines of
//! traces that are read back, and what a run comes to in figures.
#![tactic(auto)]

#[cfg(test)]
mod cuts;
#[cfg(test)]
mod damages;
#[cfg(test)]
mod losses;
#[cfg(test)]
mod negotiations;
#[cfg(test)]
mod plants;
#[cfg(test)]
mod readings;
#[cfg(test)]
mod running;
#[cfg(test)]
mod summaries;
