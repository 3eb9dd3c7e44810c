// Forms of bytes: how a value is written, and how it is read back.
#![tactic(auto)]
