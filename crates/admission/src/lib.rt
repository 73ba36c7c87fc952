// Which files are admitted: the law above the check, in the words of the conditions.
#![tactic(auto)]

pub mod facts;
pub mod load;
