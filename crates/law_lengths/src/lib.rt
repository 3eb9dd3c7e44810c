// Laws: a word is in a list where it is among the list's words of its length.
#![tactic(auto)]
