// Load shape sources of one's own, as a purchaser fits them: one that borrows its data, and one that owns it.
#![tactic(auto)]

pub mod profile;
pub mod profile_fault;
pub mod two_rate;
