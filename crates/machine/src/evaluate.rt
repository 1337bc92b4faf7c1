// What evaluating an operator does.
ghost use Rattle.std.specs.Prelude.{ℕ, ◌≡◌, ◌<◌, ◌^◌};
ghost use Rattle.stack_assembly.specs.Operators.{unary, binary};
ghost use Rattle.stack_assembly.specs.Step.{fetched, outcome};
ghost use Rattle.machine.specs.Outcomes.{store_of, outcome_of, Rest, Comes};

use crate::machine::Machine;
use answers::{Effect, Refusal};
use script::Operators;
use store::Stop;
use words::{Fetched, Word};

impl Machine<'_> {
    // One operand and one result.
    #[inline(always)]
    #[tactic(auto, unfolding(stack_assembly::specs::Operators::unary, stack_assembly::specs::Machine::pop_from))]
    fn unary<F: FnOnce(u32) -> u32>(&mut self, f: F) -> Result<(), Stop>
        requires { F.IsAlwaysCallable f }
        ensures value { (g : ℕ → ℕ) → ((a c : ℕ) → a < 2 ^ 32 → F.post f a c → c ≡ g a)
            → outcome_of result (store_of self.new) ≡ unary g (store_of self.old) }
        ensures rest { Rest result self.old self.new }
    {
        let a = self.operands.pop()?;
        self.operands.place(f(a));
        Ok(())
    }

    // Two operands and one result.
    #[inline(always)]
    #[tactic(auto, unfolding(stack_assembly::specs::Operators::binary, stack_assembly::specs::Machine::pop_from))]
    fn binary<F: FnOnce(u32, u32) -> u32>(&mut self, f: F) -> Result<(), Stop>
        requires { F.IsAlwaysCallable f }
        ensures value { (g : ℕ → ℕ → ℕ) → ((a b c : ℕ) → a < 2 ^ 32 → b < 2 ^ 32 → F.post f a b c → c ≡ g a b)
            → outcome_of result (store_of self.new) ≡ binary g (store_of self.old) }
        ensures rest { Rest result self.old self.new }
    {
        let b = self.operands.pop()?;
        let a = self.operands.pop()?;
        self.operands.place(f(a, b));
        Ok(())
    }

    // Evaluates the operator at an index. It is generic with where the operators come from, so that each kind of run has the match to itself: LLVM then
    // puts it into the loop. With a function of its own for the words, a step took 34.6 instructions for 33.1.
    #[inline(always)]
    #[tactic(auto, unfolding(stack_assembly::specs::Step::outcome, stack_assembly::specs::Step::pushed, stack_assembly::specs::Operators::evaluated, word::specs::Word::less, word::specs::Word::at_most, word::specs::Word::shifted_right))]
    pub(crate) fn evaluate<S: Operators>(&mut self, script: &mut S, at: u32) -> Result<(), Stop>
        ensures comes { Comes (outcome (fetched (S.says script.old) at) (store_of self.old)) result self.old self.new }
        ensures script { S.says script.new ≡ S.says script.old }
    {
        match script.get_operator(at) {
            Fetched::Integer(value) => Ok(self.operands.push(value)?),
            Fetched::Word(word) => match word {
                Word::Mul => self.binary(|a, b| word::wrapping_mul(a, b)),
                Word::Add => self.binary(|a, b| a.wrapping_add(b)),
                Word::Sub => self.binary(|a, b| a.wrapping_sub(b)),
                Word::Lt => self.binary(|a, b| u32::from(a.cast_signed() < b.cast_signed())),
                Word::Le => self.binary(|a, b| u32::from(a.cast_signed() <= b.cast_signed())),
                Word::Eq => self.binary(|a, b| u32::from(a == b)),
                Word::Gt => self.binary(|a, b| u32::from(a.cast_signed() > b.cast_signed())),
                Word::Ge => self.binary(|a, b| u32::from(a.cast_signed() >= b.cast_signed())),
                Word::And => self.binary(|a, b| a & b),
                Word::Or => self.binary(|a, b| a | b),
                Word::Xor => self.binary(|a, b| a ^ b),
                Word::RotateLeft => self.binary(|a, b| word::rotate_left(a, b)),
                Word::RotateRight => self.binary(|a, b| word::rotate_right(a, b)),
                Word::ShiftLeft => self.binary(|a, b| a.wrapping_shl(b)),
                Word::ShiftRight => self.binary(|a, b| a
                    .cast_signed()
                    .wrapping_shr(b)
                    .cast_unsigned()),
                Word::CountOnes => self.unary(|a| word::count_ones(a)),
                Word::LeadingZeros => self.unary(|a| a.leading_zeros()),
                Word::TrailingZeros => self.unary(|a| a.trailing_zeros()),
                Word::Copy => self.copy(),
                Word::Drop => self.drop(),
                Word::Div => self.div(),
                Word::Read => self.read(),
                Word::Write => self.write(),
                Word::Jump => self.jump(),
                Word::JumpIf => self.jump_if(),
                Word::Call => self.call(),
                Word::CallEither => self.call_either(),
                Word::Return => self.return_(),
                Word::Assert => self.assert(),
                Word::Yield => self.yield_(),
            },
            Fetched::Past => Err(Stop::Raised(Effect::OutOfOperators)),
            Fetched::Damaged(place) => Err(Stop::Refused(Refusal::Damaged(place))),
            Fetched::Unresolved => Err(Stop::Raised(Effect::InvalidReference)),
            Fetched::Unknown => Err(Stop::Raised(Effect::UnknownIdentifier)),
        }
    }
}
