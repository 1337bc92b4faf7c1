//! Compile: from a script's text to the records of its operators and labels, in tables that the caller lends.
#![tactic(auto)]

mod compilation;
mod pass;
mod table;
mod text;

pub use answers::{CompileError, LONGEST_TEXT};
pub use compilation::compile;
pub use records::Counts;
