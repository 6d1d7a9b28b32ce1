//! Tests of servers at work, from their texts to what a run tells. It has no code.
#![tactic(auto)]

#[cfg(test)]
mod runs;
#[cfg(test)]
mod texts;
