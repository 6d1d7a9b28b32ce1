//! Tests of one server by itself: deliveries by their ticks, traps, sends, calls, filters, dumps and temporaries. It has no code.
#![tactic(auto)]

#[cfg(test)]
mod calls;
#[cfg(test)]
mod deliveries;
#[cfg(test)]
mod dumps;
#[cfg(test)]
mod servers;
#[cfg(test)]
mod temporaries;
