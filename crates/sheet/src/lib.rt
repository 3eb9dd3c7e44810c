// The sheet: the bytes of a tree.
#![tactic(auto)]
