// The page for the rule meeting: its definitions and theorems stand in specs/; no code.
#![tactic(auto)]
