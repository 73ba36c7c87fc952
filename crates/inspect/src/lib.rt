// Commands that say what a model file means: `check` and `fronts`.
#![tactic(auto)]

pub mod check;
pub mod digits;
pub mod fronts;
pub mod line;
