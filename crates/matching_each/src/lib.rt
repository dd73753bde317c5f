// Tests of every node of a sort of a store: one walk for every test, and what is asked of sorts before matching.
#![tactic(auto)]

pub mod each;
pub mod nodes;
pub mod premises;
