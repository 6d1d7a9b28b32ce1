//! Tests of images, by public items alone. It has no code.
#![tactic(auto)]

#[cfg(test)]
mod images;
#[cfg(test)]
mod refusals;
