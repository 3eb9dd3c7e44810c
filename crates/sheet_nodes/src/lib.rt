// What stands at a place of a sheet: a node is its record, then the nodes in it.
#![tactic(auto)]
