//! Tests of a server that its operator stops: both ends of each socket are in one process, and every wait is bounded.
#![tactic(auto)]

#[cfg(test)]
mod callers;
#[cfg(test)]
mod disks;
#[cfg(test)]
mod hooks;
#[cfg(test)]
mod plays;
#[cfg(test)]
mod props;
#[cfg(test)]
mod tests;
