// Registers of one's own, as a purchaser fits them: one that owns its data, one that borrows it, and one of many dials.
#![tactic(auto)]

pub mod counter;
pub mod disc;
pub mod disc_fault;
pub mod panel;
