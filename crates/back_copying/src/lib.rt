// 02 (f): a value of the sheet is read at a place and written, as a fresh script has it, into a lent buffer. A place that is lost stays so.
// For our own crates: the words that are handed over are words of the grammar.
#![tactic(auto, unfolding(text::specs::Bytes::one_of, pieces::specs::Pieces::word_like, digits::specs::Numeral::all))]

pub mod fields;
pub mod values;
