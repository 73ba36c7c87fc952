// Step records, journal records, and the one list that holds either.
#![tactic(auto)]

pub mod list;
pub mod record;
pub mod step;
pub mod texts;
