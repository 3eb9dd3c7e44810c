// 01, "Checking": validate.rs's rules and the operation, as definitions.
#![tactic(auto)]
