// Reading and checking together.
#![tactic(auto)]
