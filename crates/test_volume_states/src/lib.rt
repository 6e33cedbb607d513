//! Tables of spools, what is reported of the volumes that hold them and how it is printed. Each row is data.
#![tactic(auto)]

#[cfg(test)]
mod printed;
#[cfg(test)]
mod states;
#[cfg(test)]
mod volumes;
