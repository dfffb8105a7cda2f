// The samples of document 01 follow from the definitions: one claim. There is no code here.
#![tactic(auto)]
