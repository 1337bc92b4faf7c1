//! What operators work on, in lent buffers: two stacks of words and a memory; and what stops an evaluation.
#![tactic(auto)]

mod call_stack;
mod memory;
mod operand_stack;
mod stack;
mod stop;

pub use call_stack::CallStack;
pub use memory::{InvalidAddress, Memory};
pub use operand_stack::{OperandStack, OperandStackUnderflow};
pub use stack::Stack;
pub use stop::Stop;
