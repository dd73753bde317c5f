// The law of parts that stand on a later sheet as variables of their sorts; no code.
#![tactic(auto)]
