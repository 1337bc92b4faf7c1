//! An evaluation, as a host drives it: its state, what is lent to its calls, and what they answer.
#![tactic(auto, unfolding(stack_assembly::specs::Host::forged, stack_assembly::specs::Host::fresh))]

mod answer;
mod call;
mod entries;
mod eval;
mod runs;
mod state;

pub use answer::Answer;
pub use answers::{Effect, Refusal};
pub use call::Call;
pub use entries::call_stack;
pub use eval::Eval;
pub use machine::{Ended, Ran};
pub use state::State;
