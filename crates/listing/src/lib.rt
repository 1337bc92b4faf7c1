//! What the programs that test print: texts, words, and a script's records.
#![tactic(auto)]

mod listing;
mod text;

pub use listing::Listing;
pub use text::{Quoted, Words};
