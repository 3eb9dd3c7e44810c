// 02 (i), books of named scripts: reading, calls, a name looked up and the listing, as definitions.
#![tactic(auto)]
