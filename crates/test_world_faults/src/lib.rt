//! A world whose device fails in one call, or crashes after it, each call in turn: the device that is opened again shows
//! each change that a released reply depended on. Devices in which one octet was changed: each is refused as no volume or
//! as damaged, or opened as a spool that answers.
#![tactic(auto)]

#[cfg(test)]
mod each_octet;
#[cfg(test)]
mod failing;
#[cfg(test)]
mod openings;
#[cfg(test)]
mod some_octets;
#[cfg(test)]
mod stops;
