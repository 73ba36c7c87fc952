// Models: the processes of an admitted file, their steps, and taking one.
#![tactic(auto)]

pub(crate) mod behaviour;
pub mod model;
