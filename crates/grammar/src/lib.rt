// The grammar: parser.rs as rules.
#![tactic(auto)]
