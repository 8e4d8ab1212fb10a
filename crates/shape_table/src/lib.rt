// A shape table: load shapes, read in place from bytes.
#![tactic(auto)]

mod areas;
mod fields;
mod shape;
pub mod table;
