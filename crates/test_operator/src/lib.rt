//! Tests of the operator's threads over a kernel that only counts: how a line is answered, and that an operator that
//! reads no answers delays only its own lines, and not the end of the server.
#![tactic(auto)]

#[cfg(test)]
mod kernels;
#[cfg(test)]
mod plays;
#[cfg(test)]
mod streams;
#[cfg(test)]
mod tests;
