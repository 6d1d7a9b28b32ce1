//! Loading, the lines of pairs: between the pairing of two programs and the output of the command that shows it. It takes
//! two programs and what belongs together in them, and gives the lines that say so: exactly those of `pairing_text`.
#![tactic(auto)]

mod entries;
mod lines;
mod names;
mod parts;

pub use lines::pair_lines;
