// 02 (f): easings, loop modes and the patterns of a `stagger`, read in the sheet and written. For our own crates.
#![tactic(auto, unfolding(text::specs::Bytes::one_of, pieces::specs::Pieces::word_like, digits::specs::Numeral::all))]

pub mod easings;
pub mod options;
pub mod patterns;
