//! Tests of loading: what files in memory stand for, and the line of each refusal. It has no code.
#![tactic(auto)]

#[cfg(test)]
mod orders;
#[cfg(test)]
mod refusals;
#[cfg(test)]
mod setups;
#[cfg(test)]
mod shelves;
#[cfg(test)]
mod sizes;
#[cfg(test)]
mod updates;
