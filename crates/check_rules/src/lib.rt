// The checked sort of a term.
#![tactic(auto)]
