// Model files: which bytes are admitted, and the fault of those that are refused.
#![tactic(auto)]

pub(crate) mod behaviour;
pub(crate) mod body;
pub(crate) mod exchange;
pub(crate) mod expression;
pub mod file;
pub(crate) mod operands;
pub(crate) mod statement;
