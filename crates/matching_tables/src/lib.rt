// What the walks of matching over the sorts of a store stand on. The parameters stand in a lent table by name, `params`: how
// often the name is listed. The map stands in two: `images` by name, 0 for an unbound name, else one more than its image's number;
// and `bound`, the bound names in order. Two more tables note what a walk has found.
#![tactic(auto)]

pub mod heads;
pub mod names;
pub mod notes;
pub mod parts;
