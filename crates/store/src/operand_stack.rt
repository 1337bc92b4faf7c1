// The operand stack.

use crate::stack::Stack;
use crate::stop::Stop;
use answers::{Effect, Refusal};

/// A pop from nothing.
#[derive(Clone, Copy, PartialEq, Eq, Debug)]
pub struct OperandStackUnderflow;

impl From<OperandStackUnderflow> for Stop {
    ghost use Rattle.std.specs.Prelude.{◌≡◌};
    ghost use Rattle.store.specs.declared.stop.Stop.TheVariants.{Raised};
    ghost use Rattle.answers.specs.declared.effect.Effect.TheVariants as effect;

    ghost from_gives = { λ _ s. s ≡ Raised effect.OperandStackUnderflow };

    #[inline(always)]
    fn from(_: OperandStackUnderflow) -> Stop {
        Stop::Raised(Effect::OperandStackUnderflow)
    }
}

/// The words that operators work on.
#[derive(Drop)]
pub struct OperandStack<'a> {
    pub stack: Stack<'a>,
}

impl<'a> OperandStack<'a> {
    ghost use Rattle.std.specs.Prelude.{◌≡◌, true};
    ghost use Rattle.stack_assembly.specs.Machine.{has_room, with_word};
    ghost use Rattle.store.specs.Stacks.{stack_of, pushed, Popped, word_at, removed, found, SameBuffer};
    ghost use Rattle.answers.specs.declared.refusal.Refusal.TheVariants.{OperandStackFull};

    /// Pops the top; an underflow where there is none.
    #[inline(always)]
    pub fn pop(&mut self) -> Result<u32, OperandStackUnderflow>
        ensures same { SameBuffer self.old.stack self.new.stack }
        ensures value { Popped (found result) (stack_of self.old.stack) (stack_of self.new.stack) }
    {
        self.stack.pop().ok_or(OperandStackUnderflow)
    }

    // As `CallStack::push` but for the refusal. `Stack` has what both share; one push would answer an error that each type turns into its own: more lines.
    /// Pushes a word; refused with the depth where the stack is full.
    #[inline(always)]
    #[tactic(auto, using(crate::proofs::Stacks::depth_in), unfolding(crate::specs::Stacks::stack_of))]
    pub fn push(&mut self, word: u32) -> Result<(), Refusal>
        ensures same { SameBuffer self.old.stack self.new.stack }
        ensures value { pushed OperandStackFull word (stack_of self.old.stack) ≡ (result, stack_of self.new.stack) }
    {
        if !self.stack.has_room() {
            return Err(Refusal::OperandStackFull(self.stack.depth));
        }
        self.stack.place(word);
        Ok(())
    }

    /// A push where there is room.
    #[inline(always)]
    pub fn place(&mut self, word: u32)
        requires { has_room (stack_of self.old.stack) ≡ true }
        ensures same { SameBuffer self.old.stack self.new.stack }
        ensures value { stack_of self.new.stack ≡ with_word word (stack_of self.old.stack) }
    {
        self.stack.place(word);
    }

    /// The word at an index from the top, 0 being the top.
    #[inline(always)]
    pub fn get(&self, index: usize) -> Option<u32>
        ensures { result ≡ word_at index (stack_of self.now.stack) }
    {
        self.stack.get(index)
    }

    /// Takes the word at an index from the top away; those above it move down, and leave a zero.
    #[inline(always)]
    pub fn remove(&mut self, index: usize) -> Option<u32>
        ensures same { SameBuffer self.old.stack self.new.stack }
        ensures value { removed index (stack_of self.old.stack) ≡ (result, stack_of self.new.stack) }
    {
        self.stack.remove(index)
    }
}
