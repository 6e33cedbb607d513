//! Tests of the log: lines that are lost, a log that nobody reads, and what a server with two listeners reports. Both ends
//! of each socket are in one process, and every wait is bounded. The operator of a server makes a group first, and stops
//! the server at the end.
#![tactic(auto)]

#[cfg(test)]
mod logs;
#[cfg(test)]
mod plays;
#[cfg(test)]
mod scenes;
#[cfg(test)]
mod tests;
