// The memory of the index: definitions and laws only.
#![tactic(auto)]
