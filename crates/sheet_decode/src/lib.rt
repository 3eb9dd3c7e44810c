// Readers of a sheet's values at a place, for our own crates. Each gives a value and the place behind it. Where no value
// stands, the value given means nothing and the place is lost, past the end; a read at a lost place gives a lost place. So
// a record's fields are read one after the other, and the last place says whether all of them were there.
#![tactic(auto)]

pub mod fields;
pub mod nodes;
pub mod optional;
pub mod values;
