//! Tests of the orders in which a commit and its release can fall between the steps of a session's thread, of callers that
//! take little, and of what becomes of a block that a session's thread leaves to the thread that flushes.
#![tactic(auto)]

#[cfg(test)]
mod leaving;
#[cfg(test)]
mod plays;
#[cfg(test)]
mod races;
#[cfg(test)]
mod stalls;
#[cfg(test)]
mod tests;
