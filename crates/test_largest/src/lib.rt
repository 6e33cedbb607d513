//! Tests of the largest volume, on a device in memory that keeps only what was written.
#![tactic(auto)]

#[cfg(test)]
mod files;
mod sparse;
#[cfg(test)]
mod tests;
