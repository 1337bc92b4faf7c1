// The calls of a host as they are printed, and what they leave.
use eval::{Call, Eval};
use std::fmt;

/// A call by its name and its operands.
#[derive(Clone, Copy)]
pub(crate) struct Named(pub Call);

impl fmt::Display for Named {
    fn fmt<W: fmt::Write>(&self, f: &mut fmt::Formatter<W>) -> fmt::Result {
        match self.0 {
            Call::Step => write!(f, "step"),
            Call::Run(budget) => write!(f, "run {budget}"),
            Call::Clear => write!(f, "clear"),
            Call::Push(word) => write!(f, "push {word}"),
            Call::Pop => write!(f, "pop"),
            Call::Read(address) => write!(f, "read {address}"),
            Call::Write(address, word) => write!(f, "write {address} {word}"),
        }
    }
}

// A stack's depth, and all words of its buffer from the bottom up, with a bar where those above the top begin.
#[derive(Clone, Copy)]
struct Stack<'a> {
    depth: usize,
    words: &'a [u32],
}

impl fmt::Display for Stack<'_> {
    fn fmt<W: fmt::Write>(&self, f: &mut fmt::Formatter<W>) -> fmt::Result {
        write!(f, "{}:", self.depth)?;
        for (place, word) in self.words.iter().enumerate() {
            if place == self.depth {
                write!(f, " |")?;
            }
            write!(f, " {}", word.cast_signed())?;
        }
        Ok(())
    }
}

/// What a call leaves: next, and both stacks with every word of their buffers.
#[derive(Clone, Copy)]
pub(crate) struct Left<'a, 'b>(pub &'a Eval<'b>);

fn operands<'a>(eval: &'a Eval<'_>) -> Stack<'a> {
    Stack {
        depth: eval.state.operand_depth,
        words: &eval.operand_stack[..],
    }
}

fn calls<'a>(eval: &'a Eval<'_>) -> Stack<'a> {
    Stack {
        depth: eval.state.call_depth,
        words: &eval.call_stack[..],
    }
}

impl fmt::Display for Left<'_, '_> {
    fn fmt<W: fmt::Write>(&self, f: &mut fmt::Formatter<W>) -> fmt::Result {
        let next = self.0.state.next_operator;
        let operands = operands(self.0);
        let calls = calls(self.0);
        write!(f, "next {next}, operands {operands}, calls {calls}")
    }
}
