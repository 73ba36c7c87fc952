// Who takes the next step: the traits of choosers, what fairness promises, and four choosers.
#![tactic(auto)]

pub mod answer;
pub mod chooser;
mod find;
pub mod hold;
pub mod installed;
pub mod rotation;
pub mod script;
pub mod seniority;
