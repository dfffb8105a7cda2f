// The analysis as definitions and theorems: constraints, flow rules, least estimate, machine and guarantee. It has no functions.
#![tactic(auto)]
