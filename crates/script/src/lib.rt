//! What a step reads of a script: the next operator, and what a run remembers of it.
#![tactic(auto)]

mod fetch;
mod memo;
mod operators;

pub use memo::Memo;
pub use operators::{Once, Operators};
