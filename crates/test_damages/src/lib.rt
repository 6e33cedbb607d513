//! Tables of damages: volumes of which octets were replaced, or a bit was changed, and whether they are opened. Each row is
//! data.
#![tactic(auto)]

#[cfg(test)]
mod damages;
#[cfg(test)]
mod flips;
