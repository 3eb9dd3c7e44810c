// Laws on rules of the grammar at a place of a text.
#![tactic(auto)]
