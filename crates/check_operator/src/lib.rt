// The checked sort of an operator, with its causes in the order 24, 25, 26, 22, 23.
#![tactic(auto)]

pub mod op;
pub mod rule;
pub mod sets;
