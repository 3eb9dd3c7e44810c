// Laws alone: what a sheet that is opened tells of its text and its bytes.
#![tactic(auto)]
