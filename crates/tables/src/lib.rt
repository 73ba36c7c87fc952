// Processes in fixed memory: what they can do, and what they are after it.
#![tactic(auto)]

pub mod exchanged;
pub mod moving;
pub mod offers;
pub mod table;
