// Definitions and laws alone: 02 (k), the planed form of a tree.
#![tactic(auto)]
