// The tagged fields of a recording: which tags there are and the lengths of each, what stands at a place of
// bytes, and the status words that a field holds. The rules are rules/specs/Recording.antt.
#![tactic(auto)]

mod field;
mod tag;
mod words;

pub use field::find;
pub use tag::{TAG_BLOCK, TAG_BOARD, TAG_LIST, TAG_MESSAGE, TAG_STATUS, length_good};
pub use words::{STATUS_WORDS, StatusWords, take_words};
