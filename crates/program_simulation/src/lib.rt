//! The simulation that `newsd sim` runs: a script of events, played over a device in memory.
#![tactic(auto)]

mod new_device;
mod playing;
mod renewing;
mod sim;
mod sim_devices;
mod stage;

pub use playing::simulate;
