// The converters keep the leak: definitions and laws. There is no code here.
#![tactic(auto)]
