// What one process can do next.
#![tactic(auto)]

pub mod counting;
pub mod evaluation;
pub mod facts;
pub mod finding;
pub mod front;
pub mod left;
