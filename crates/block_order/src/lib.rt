// Block order does not matter: statement and proof. There is no code here.
#![tactic(auto)]
