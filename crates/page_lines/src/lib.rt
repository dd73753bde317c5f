// The lines of the pages, written into a lent buffer that has room for them. The definitions stand in crate page.
#![tactic(auto)]

pub mod heights;
pub mod line;
pub mod paged;
pub mod pages;
pub mod rows;
