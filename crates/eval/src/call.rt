// The calls of a host, as values.

use crate::answer::Answer;
use crate::eval::Eval;

/// One of the seven calls, with its operands.
#[derive(Clone, Copy, PartialEq, Eq, Debug)]
pub enum Call {
    Step,
    /// With a budget of steps.
    Run(u32),
    Clear,
    /// A word.
    Push(u32),
    Pop,
    /// An address.
    Read(u32),
    /// An address and a word.
    Write(u32, u32),
}

impl Call {
    ghost use Rattle.stack_assembly.specs.Promise.{Called};
    ghost use Rattle.eval.specs.Lends.{lent_of, answer_of, SameLent};
    ghost use Rattle.eval.specs.Answers.{call_of};

    /// Makes the call.
    pub fn make(self, eval: &mut Eval<'_>) -> Answer
        ensures called { Called (call_of self) (lent_of eval.old) (answer_of result) (lent_of eval.new) }
        ensures same { SameLent eval.old eval.new }
    {
        match self {
            Call::Step => eval.step().into(),
            Call::Run(budget) => eval.run(budget).into(),
            Call::Clear => eval.clear_effect().into(),
            Call::Push(word) => eval.push(word).into(),
            Call::Pop => eval.pop().into(),
            Call::Read(address) => eval.read(address).into(),
            Call::Write(address, word) => eval.write(address, word).into(),
        }
    }
}
