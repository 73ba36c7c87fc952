// A session on one engine: what a line asks for, what is done, and what is answered.
#![tactic(auto)]

pub mod fault;
mod operands;
pub mod request;
pub mod session;
pub mod state;
mod texts;
