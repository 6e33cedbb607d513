//! Tests of the server's running threads, and of the mark that they share: both ends of each socket are in one process, and
//! every wait is bounded.
#![tactic(auto)]

#[cfg(test)]
mod callers;
#[cfg(test)]
mod hooks;
#[cfg(test)]
mod kernels;
#[cfg(test)]
mod plays;
#[cfg(test)]
mod seats;
#[cfg(test)]
mod tests;
