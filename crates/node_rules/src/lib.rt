// The rules of a node's own fields, for our own crates: what a rule finds, the tests that rules share, and validate.rs's rules of each
// kind of node, in its order. Those of a track's frames and the walk over nodes are in `validate`.
#![tactic(auto)]

pub mod faults;
pub mod rules;
