// The call stack.

use crate::stack::Stack;
use answers::Refusal;

/// The operators that calls return to.
#[derive(Drop)]
pub struct CallStack<'a> {
    pub stack: Stack<'a>,
}

impl<'a> CallStack<'a> {
    ghost use Rattle.std.specs.Prelude.{◌≡◌};
    ghost use Rattle.store.specs.Stacks.{stack_of, Popped, pushed, SameBuffer};
    ghost use Rattle.answers.specs.declared.refusal.Refusal.TheVariants.{CallStackFull};

    /// Pops the operator to return to; `None` where there is no call to return from.
    #[inline(always)]
    pub fn pop(&mut self) -> Option<u32>
        ensures same { SameBuffer self.old.stack self.new.stack }
        ensures value { Popped result (stack_of self.old.stack) (stack_of self.new.stack) }
    {
        self.stack.pop()
    }

    // As `OperandStack::push` but for the refusal. `Stack` has what both share; one push would answer an error that each type turns into its own: more lines.
    /// Pushes the operator to return to; refused with the depth where the stack is full.
    #[inline(always)]
    #[tactic(auto, using(crate::proofs::Stacks::depth_in), unfolding(crate::specs::Stacks::stack_of))]
    pub fn push(&mut self, next: u32) -> Result<(), Refusal>
        ensures same { SameBuffer self.old.stack self.new.stack }
        ensures value { pushed CallStackFull next (stack_of self.old.stack) ≡ (result, stack_of self.new.stack) }
    {
        if !self.stack.has_room() {
            return Err(Refusal::CallStackFull(self.stack.depth));
        }
        self.stack.place(next);
        Ok(())
    }
}
