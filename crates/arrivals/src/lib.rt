// As what a channel arrives where processes meet, and outside.
#![tactic(auto)]

pub mod facts;
mod filling;
pub mod table;
