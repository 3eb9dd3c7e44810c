// 02 (b), "A morning sheet over the whole chain": feeding, as a definition.
#![tactic(auto)]
