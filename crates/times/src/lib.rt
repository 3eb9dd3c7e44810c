// 01, "For demand 3": its terms on written and stored times, as definitions.
#![tactic(auto)]
