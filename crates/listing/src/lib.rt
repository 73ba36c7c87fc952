// The steps that the fronts of all processes make.
#![tactic(auto)]

pub mod fill;
pub mod offer;
