// Demand 3: what holds of every list of calls. No code: definitions and laws.
#![tactic(auto)]
