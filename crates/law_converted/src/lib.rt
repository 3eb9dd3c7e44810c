// The law of 02 (h) on checking a converted sheet. No code.
#![tactic(auto)]
