//! What a token is, and the number that it may spell.
#![tactic(auto)]

mod kind;
mod number;
mod worked_examples;

pub use kind::{Kind, is_label, kind_of};
pub use number::{Radix, read_number};
pub use worked_examples::examples_hold;
