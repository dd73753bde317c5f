// Substitution, matching and compatibility of sorts: definitions and laws only, in specs/.
#![tactic(auto)]
