// The text of a sort of the store, written into a lent buffer that has room for it. The definitions stand in specs/.
#![tactic(auto)]

pub mod buffer;
pub mod form;
pub mod text;
