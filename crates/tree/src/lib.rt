// The tree: definitions and laws only.
#![tactic(auto)]
