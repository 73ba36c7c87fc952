// Choosers and closed steps read from words, and turns of a chooser over given closed steps, for trying choosers out.
#![tactic(auto)]

pub mod choice;
pub mod chosen;
pub mod owned;
pub mod turns;
pub mod words;
