// The classes of an admitted file by number, and a fresh process of a class.
#![tactic(auto)]

pub mod fresh;
pub mod head;
pub mod place;
