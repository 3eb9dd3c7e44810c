// 02 (f), "Give me the script back": writing, as a definition.
#![tactic(auto)]
