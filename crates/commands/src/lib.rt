// The commands of a model file: their bytes and operands.
#![tactic(auto)]

pub mod behaviour;
pub mod bytes;
pub mod command;
pub mod expression;
pub mod set;
pub mod statement;
pub mod text;
