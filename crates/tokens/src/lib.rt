//! The tokens of a text, which `Script::compile` finds by `char_indices`.
#![tactic(auto)]

mod first;
mod plain;
mod scan;
mod tokens;
mod worked_examples;

pub use first::Token;
pub use tokens::Tokens;
pub use worked_examples::examples_hold;
