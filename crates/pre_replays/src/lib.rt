//! Worked examples of runs: what `replay` comes to, and the traces that it writes, as worked out apart from the program.
#![tactic(auto)]

#[cfg(test)]
mod bounds;
#[cfg(test)]
mod bridges;
#[cfg(test)]
mod calls;
#[cfg(test)]
mod examples;
#[cfg(test)]
mod links;
#[cfg(test)]
mod outsides;
#[cfg(test)]
mod pieces;
#[cfg(test)]
mod plants;
#[cfg(test)]
mod refusals;
#[cfg(test)]
mod running;
#[cfg(test)]
mod scripts;
#[cfg(test)]
mod traces;
