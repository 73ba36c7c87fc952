// What one process offers, found by one walk over its first statement.
#![tactic(auto)]

pub mod kinds;
pub mod sending;
pub mod walk;
