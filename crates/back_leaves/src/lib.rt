// 02 (f): what stands behind a leaf's word, read in the sheet and written. For our own crates.
#![tactic(auto, unfolding(text::specs::Bytes::one_of, pieces::specs::Pieces::word_like, digits::specs::Numeral::all))]

mod frames;
pub mod leaves;
