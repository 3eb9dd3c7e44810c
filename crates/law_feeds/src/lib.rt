// Laws of the morning sheet over a list of feeds: no code.
#![tactic(auto)]
