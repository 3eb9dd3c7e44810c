// Laws on the grammar: what parses has no foreign byte, fits the sheet, and is small.
#![tactic(auto)]
