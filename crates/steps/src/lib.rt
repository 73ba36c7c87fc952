// The steps of a model, and the model after one.
#![tactic(auto)]

pub mod facts;
