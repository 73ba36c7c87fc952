// What the four calls answer: the fault of a load, the refusals, and why a run stops.
#![tactic(auto)]

pub mod fault;
pub mod refusal;
pub mod stop;
