// Runs: the operators of a script, one after the other.

ghost use Rattle.std.specs.Prelude.{◌≡◌, ◌+◌, ◌<◌, ◌^◌, false, None};
ghost use Rattle.answers.specs.declared.refusal.Refusal.TheVariants.{BudgetUsed};
ghost use Rattle.machine.specs.declared.steps.Ended.TheVariants.{Refused};
ghost use Rattle.machine.specs.Steps.{counted_by};
ghost use Rattle.machine.specs.Runs.{Runs, RunsAhead, IsEnded};

use crate::machine::Machine;
use crate::steps::Ended;
use answers::Refusal;
use script::Operators;

/// How a run ended, and the steps that it made.
#[derive(Clone, Copy, PartialEq, Eq, Debug)]
pub struct Ran {
    pub ended: Ended,
    pub steps: u32,
}

/// How a run ended that may not go back.
#[derive(Clone, Copy, PartialEq, Eq, Debug)]
pub enum Ahead {
    Ended(Ran),
    /// The next operator stands no later than the last, and the budget is not used; so many steps were made.
    TurnedBack(u32),
}

// A run that ends in its next step; a refused one does not count.
#[inline(always)]
fn ended(before: u32, ended: Ended) -> Ran
    requires { before + 1 < 2 ^ 32 }
    ensures { result ≡ record { ended = ended; steps = before + counted_by ended } }
{
    Ran {
        ended,
        steps: before + ended.steps(),
    }
}

// A run that used its budget, before this operator.
#[inline(always)]
fn used(budget: u32, next: u32) -> Ran
    ensures { result ≡ record { ended = Refused (BudgetUsed next); steps = budget } }
{
    Ran {
        ended: Ended::Refused(Refusal::BudgetUsed(next)),
        steps: budget,
    }
}

impl Machine<'_> {
    // Steps until one ends the run, the budget is used, or, if it is to run only ahead, the next operator stands no later than the last: up to there none is
    // met twice.
    //
    // That no effect stands is asked of the caller: with `step` in the loop, which tests it each time, loops took 6 % more instructions; with the test here, 3 %.
    #[inline(always)]
    fn make_steps<S: Operators, const AHEAD: bool>(&mut self, script: &mut S, budget: u32) -> Ahead
        requires { 0 < budget → self.old.effect ≡ None }
        ensures ran { RunsAhead (S.says script.old) budget result self.old self.new }
        ensures script { S.says script.new ≡ S.says script.old }
        ensures ended { AHEAD ≡ false → IsEnded result }
    {
        for step in 0..budget {
            let at = self.next;
            if let Err(end) = self.make_step(script) {
                return Ahead::Ended(ended(step, end));
            }
            // Two tests that return, and not one of both: that made each step of a straight line four instructions longer.
            if AHEAD && self.next <= at {
                if step + 1 < budget {
                    return Ahead::TurnedBack(step + 1);
                }
                return Ahead::Ended(used(budget, self.next));
            }
        }
        Ahead::Ended(used(budget, self.next))
    }

    /// Steps until one ends the run, or the budget is used.
    #[inline(always)]
    pub fn run<S: Operators>(&mut self, script: &mut S, budget: u32) -> Ran
        requires { self.old.effect ≡ None }
        ensures ran { Runs (S.says script.old) budget result self.old self.new }
        ensures script { S.says script.new ≡ S.says script.old }
    {
        match self.make_steps::<S, false>(script, budget) {
            Ahead::Ended(ran) => ran,
            Ahead::TurnedBack(_) => unreachable!(),
        }
    }

    /// A run, up to where it turns back.
    #[inline(always)]
    pub fn run_ahead<S: Operators>(&mut self, script: &mut S, budget: u32) -> Ahead
        ensures ran { RunsAhead (S.says script.old) budget result self.old self.new }
        ensures script { S.says script.new ≡ S.says script.old }
    {
        if let Some(effect) = self.effect
            && 0 < budget
        {
            return Ahead::Ended(ended(0, self.stand(effect)));
        }
        self.make_steps::<S, true>(script, budget)
    }
}
