// Laws of 02 (f): reading a fresh script gives the same tree, and 34 is answered exactly if there is none. No code.
#![tactic(auto)]
