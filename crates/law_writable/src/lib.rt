// Laws: a tree that some text reads to can be written, and no other can.
#![tactic(auto)]
