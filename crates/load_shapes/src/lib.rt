// Load shape sources: how a day's energy is spread over its periods.
#![tactic(auto)]

pub mod bounded;
pub mod day;
pub mod de_minimis;
pub mod even;
pub mod fault;
pub mod source;
pub mod substitute;
