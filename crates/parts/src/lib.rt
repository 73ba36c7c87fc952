// The parts of a model file: which tree stands at a place, and where it ends.
#![tactic(auto)]

pub mod facts;
pub mod walk;
