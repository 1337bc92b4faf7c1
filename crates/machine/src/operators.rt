// Operators that do more than to put one result in the place of their operands.
ghost use Rattle.std.specs.Prelude.{◌≡◌};
ghost use Rattle.answers.specs.declared.effect.Effect.TheVariants as effect;
ghost use Rattle.store.specs.declared.stop.Stop.TheVariants.{Raised};
ghost use Rattle.stack_assembly.specs.Words as word;
ghost use Rattle.stack_assembly.specs.Operators.{evaluated};
ghost use Rattle.machine.specs.Outcomes.{store_of, Comes};

use crate::machine::Machine;
use answers::Effect;
use store::Stop;
use word::divide;

// Out of line: were it a constant, its parts would be set before the jump to any word, and loops took 20 to 24 % more instructions. As a `Result` of its own it
// took 8 to 10 % more.
#[inline(never)]
fn yields() -> Stop
    ensures { result ≡ Raised effect.Yield }
{
    Stop::Raised(Effect::Yield)
}

impl Machine<'_> {
    #[inline(always)]
    #[tactic(auto, unfolding(stack_assembly::specs::Operators::evaluated, stack_assembly::specs::Operators::copied, stack_assembly::specs::Machine::pop_from))]
    pub(crate) fn copy(&mut self) -> Result<(), Stop>
        ensures { Comes (evaluated word.copy (store_of self.old)) result self.old self.new }
    {
        let index = self.operands.pop()? as usize;
        let value = self
            .operands
            .get(index)
            .ok_or(Effect::InvalidOperandStackIndex)?;
        self.operands.place(value);
        Ok(())
    }

    #[inline(always)]
    #[tactic(auto, unfolding(stack_assembly::specs::Operators::evaluated, stack_assembly::specs::Operators::dropped, stack_assembly::specs::Machine::pop_from))]
    pub(crate) fn drop(&mut self) -> Result<(), Stop>
        ensures { Comes (evaluated word.drop (store_of self.old)) result self.old self.new }
    {
        let index = self.operands.pop()? as usize;
        self.operands
            .remove(index)
            .ok_or(Effect::InvalidOperandStackIndex)?;
        Ok(())
    }

    #[inline(always)]
    #[tactic(auto, unfolding(stack_assembly::specs::Operators::evaluated, stack_assembly::specs::Operators::divided, stack_assembly::specs::Machine::pop_from))]
    pub(crate) fn div(&mut self) -> Result<(), Stop>
        ensures { Comes (evaluated word.div (store_of self.old)) result self.old self.new }
    {
        let b = self.operands.pop()?;
        let a = self.operands.pop()?;
        let (quotient, remainder) = divide(a, b)?;
        self.operands.place(quotient);
        self.operands.place(remainder);
        Ok(())
    }

    #[inline(always)]
    #[tactic(auto, unfolding(stack_assembly::specs::Operators::evaluated, stack_assembly::specs::Operators::read_at, stack_assembly::specs::Machine::pop_from))]
    pub(crate) fn read(&mut self) -> Result<(), Stop>
        ensures { Comes (evaluated word.read (store_of self.old)) result self.old self.new }
    {
        let address = self.operands.pop()?;
        let value = self.memory.read(address)?;
        self.operands.place(value);
        Ok(())
    }

    #[inline(always)]
    #[tactic(auto, unfolding(stack_assembly::specs::Operators::evaluated, stack_assembly::specs::Operators::written_at, stack_assembly::specs::Machine::pop_from))]
    pub(crate) fn write(&mut self) -> Result<(), Stop>
        ensures { Comes (evaluated word.write (store_of self.old)) result self.old self.new }
    {
        let value = self.operands.pop()?;
        let address = self.operands.pop()?;
        self.memory.write(address, value)?;
        Ok(())
    }

    #[inline(always)]
    #[tactic(auto, unfolding(stack_assembly::specs::Operators::evaluated, stack_assembly::specs::Machine::pop_from))]
    pub(crate) fn jump(&mut self) -> Result<(), Stop>
        ensures { Comes (evaluated word.jump (store_of self.old)) result self.old self.new }
    {
        self.next = self.operands.pop()?;
        Ok(())
    }

    #[inline(always)]
    #[tactic(auto, unfolding(stack_assembly::specs::Operators::evaluated, stack_assembly::specs::Operators::jumped_if, stack_assembly::specs::Machine::pop_from))]
    pub(crate) fn jump_if(&mut self) -> Result<(), Stop>
        ensures { Comes (evaluated word.jump_if (store_of self.old)) result self.old self.new }
    {
        let index = self.operands.pop()?;
        let condition = self.operands.pop()?;
        if condition != 0 {
            self.next = index;
        }
        Ok(())
    }

    #[inline(always)]
    #[tactic(auto, unfolding(stack_assembly::specs::Operators::evaluated, stack_assembly::specs::Operators::called, stack_assembly::specs::Operators::entered, stack_assembly::specs::Machine::pop_from))]
    pub(crate) fn call(&mut self) -> Result<(), Stop>
        ensures { Comes (evaluated word.call (store_of self.old)) result self.old self.new }
    {
        self.calls.push(self.next)?;
        self.next = self.operands.pop()?;
        Ok(())
    }

    #[inline(always)]
    #[tactic(auto, unfolding(stack_assembly::specs::Operators::evaluated, stack_assembly::specs::Operators::called_either, stack_assembly::specs::Operators::entered, stack_assembly::specs::Operators::jumped_if, stack_assembly::specs::Machine::pop_from))]
    pub(crate) fn call_either(&mut self) -> Result<(), Stop>
        ensures { Comes (evaluated word.call_either (store_of self.old)) result self.old self.new }
    {
        self.calls.push(self.next)?;
        let else_ = self.operands.pop()?;
        let then = self.operands.pop()?;
        let condition = self.operands.pop()?;
        self.next = if condition != 0 { then } else { else_ };
        Ok(())
    }

    #[inline(always)]
    #[tactic(auto, unfolding(stack_assembly::specs::Operators::evaluated, stack_assembly::specs::Operators::returned))]
    pub(crate) fn return_(&mut self) -> Result<(), Stop>
        ensures { Comes (evaluated word.return (store_of self.old)) result self.old self.new }
    {
        self.next = self.calls.pop().ok_or(Effect::Return)?;
        Ok(())
    }

    #[inline(always)]
    #[tactic(auto, unfolding(stack_assembly::specs::Operators::evaluated, stack_assembly::specs::Operators::asserted, stack_assembly::specs::Machine::pop_from))]
    pub(crate) fn assert(&mut self) -> Result<(), Stop>
        ensures { Comes (evaluated word.assert (store_of self.old)) result self.old self.new }
    {
        let condition = self.operands.pop()?;
        if condition == 0 {
            return Err(Stop::Raised(Effect::AssertionFailed));
        }
        Ok(())
    }

    #[inline(always)]
    #[tactic(auto, unfolding(stack_assembly::specs::Operators::evaluated))]
    pub(crate) fn yield_(&mut self) -> Result<(), Stop>
        ensures { Comes (evaluated word.yield (store_of self.old)) result self.old self.new }
    {
        Err(yields())
    }
}
