// Values of the engine: Integers and Booleans that may be unknown, and the operations on them.
#![tactic(auto)]

pub mod facts;
pub mod few;
pub mod kind;
pub mod op;
pub mod row;
pub mod value;
