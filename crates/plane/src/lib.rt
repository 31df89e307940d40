// The plane: definitions and laws only.
#![tactic(auto)]
