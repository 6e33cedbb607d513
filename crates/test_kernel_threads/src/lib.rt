//! Tests of threads that share one kernel under its lock.
#![tactic(auto)]

#[cfg(test)]
mod posters;
#[cfg(test)]
mod shared;
#[cfg(test)]
mod tally;
#[cfg(test)]
mod tests;
