// The definitions of rows, answers and the judgement of a whole sheet; no code.
#![tactic(auto)]
