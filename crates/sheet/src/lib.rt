// A sheet of figures: an expression in prefix form, checked and worked out operation by operation.
#![tactic(auto)]

pub mod check;
pub mod fault;
pub mod line;
mod reader;
pub mod sheet;
pub mod word;
pub mod work;
