// The blocks of a table: definitions and laws. There is no code here.
#![tactic(auto)]
