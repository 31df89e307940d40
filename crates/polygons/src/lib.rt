// Definitions and laws only: the rules of polygons that look at a rectangle through its own rules alone.
#![tactic(auto)]
