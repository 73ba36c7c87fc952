// The command `show`: a model file as text.
#![tactic(auto)]

pub mod show;
