// Registers: what is read off a meter, and the energy between two readings.
#![tactic(auto)]

pub mod bounded;
pub mod dial;
pub mod fault;
pub mod pair;
pub mod register;
pub mod remote;
