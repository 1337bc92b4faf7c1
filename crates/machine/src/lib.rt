//! What a script does to the stacks and the memory: its words, steps and runs.
#![tactic(auto)]

mod evaluate;
mod machine;
mod operators;
mod runs;
mod steps;

pub use machine::Machine;
pub use runs::{Ahead, Ran};
pub use steps::Ended;
