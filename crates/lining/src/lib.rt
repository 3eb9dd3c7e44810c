// 01, "Lining", and 02 (c): the operation, as a definition.
#![tactic(auto)]
