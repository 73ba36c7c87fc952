// The command `steps`: what a model file permits at its start.
#![tactic(auto)]

pub mod opening;
