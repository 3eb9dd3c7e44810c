// 02 (h), "Noise goes": the converter, as a definition.
#![tactic(auto)]
