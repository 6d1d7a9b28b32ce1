//! Tests of what reads the program's input and keeps its messages, by public items alone. It has no code.
#![tactic(auto)]

#[cfg(test)]
mod inboxes;
#[cfg(test)]
mod inputs;
#[cfg(test)]
mod plans;
#[cfg(test)]
mod schedules;
