// Heads of classes: where variables and declarations stand, and their check; and the faults that all checks name.
#![tactic(auto)]

pub mod bytes;
pub mod checked;
pub mod class;
pub mod declarations;
pub mod head;
pub mod variables;
