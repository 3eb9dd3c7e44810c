// The promises of 01 and 02 over the definitions, on one page. No code.
#![tactic(auto)]
