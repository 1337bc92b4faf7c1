//! The 30 words of the language: one constant table, looked up by name.
#![tactic(auto)]

mod fetched;
mod same;
mod table;
mod word;

pub use fetched::Fetched;
pub use word::Word;
