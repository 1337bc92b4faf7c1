//! What calls answer: the effects that a script triggers, and the refusals of calls and of compile, by name and by number. The definition's are these.
#![tactic(auto)]

mod compile_error;
mod effect;
mod refusal;

pub use compile_error::{CompileError, LONGEST_TEXT};
pub use effect::{Effect, NoEffect, number_of, standing};
pub use refusal::Refusal;
