// 01, "Reading": the operation, as a definition.
#![tactic(auto)]
