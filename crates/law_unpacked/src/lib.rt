// Laws on the operations' answers: places, lengths and counts are small, so that a packed answer of `strip` has them all.
#![tactic(auto)]
