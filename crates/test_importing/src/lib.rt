//! What becomes of the texts of a batch, and what a failing device or stream leaves of them.
#![tactic(auto)]

#[cfg(test)]
mod devices;
#[cfg(test)]
mod formats;
#[cfg(test)]
mod octets;
#[cfg(test)]
mod outcomes;
#[cfg(test)]
mod streams;
#[cfg(test)]
mod volumes;
#[cfg(test)]
mod watching;
