// The inferred row of a term, made in the store: Pool::compute_sort and compute_indexed_op_sort of pool/mod.rs, with Panics where
// the Rust panics. Each function returns the row; the store has the sorts that were made for it.
#![tactic(auto)]

pub mod family;
pub mod op;
pub mod relations;
pub mod single;
pub mod vectors;
