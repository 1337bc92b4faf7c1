// Steps and runs, as a host calls them.
#![tactic(auto, using(crate::proofs::Calls::refused), unfolding(stack_assembly::specs::Host::forged))]

ghost use Rattle.std.specs.Prelude.{◌≡◌, ◌≤◌, ◌<◌, ◌^◌, false};
ghost use Rattle.stack_assembly.specs.Host.{forged};
ghost use Rattle.stack_assembly.specs.Run.{step_call, run_call};
ghost use Rattle.stack_assembly.specs.Promise.{Called};
ghost use Rattle.machine.specs.declared.steps.Ended.TheVariants.{Refused};
ghost use Rattle.machine.specs.Steps.{step_answer};
ghost use Rattle.eval.specs.Answers.{ran_answer};
ghost use Rattle.eval.specs.Lends.{lent_of, SameLent};

use crate::eval::Eval;
use answers::Refusal;
use machine::{Ahead, Ended, Ran};
use script::{Memo, Once};

// A script of `FEW`, `SOME` or `MANY` operators at most has a place for each of them in what a run remembers. None is larger than it needs to be, as a memo is
// cleared when it is made.
const FEW: usize = 64;

const SOME: usize = 256;

const MANY: usize = 512;

// Of a longer script a run has so many places: each of the `FIRST` operators has its own, and the others share the rest.
const MOST: usize = 640;

const FIRST: usize = 384;

// A run in which labels may be looked at again so often at most does not remember from its first step.
const FEW_LOOKS: usize = 16;

// A run that is refused before its first step.
fn refused(refusal: Refusal) -> Ran
    ensures { result ≡ record { ended = Refused refusal; steps = 0 } }
{
    Ran {
        ended: Ended::Refused(refusal),
        steps: 0,
    }
}

impl Eval<'_> {
    /// One step. An effect that it raises, or that stood before, is the error, with the index of its operator; a step that is refused
    /// changes nothing and does not count.
    pub fn step(&mut self) -> Result<(), Ended>
        ensures called { Called step_call (lent_of self.old) (step_answer result) (lent_of self.new) }
        ensures same { SameLent self.old self.new }
    {
        let (script, mut machine) = self.take()?;
        let stepped = machine.step(&mut Once { script });
        self.put_back(machine);
        stepped
    }

    /// Steps until one raises an effect or is refused, or the budget of steps is used, which is a refusal too. What is looked up is remembered once the script turns
    /// back, and from the first step on where it has labels to turn back to, unless the budget is small.
    // Looked up ahead whatever the labels, a loop that is made twice took up to twice as long, by its references.
    pub fn run(&mut self, budget: u32) -> Ran
        ensures called { Called (run_call budget) (lent_of self.old) (ran_answer result) (lent_of self.new) }
        ensures same { SameLent self.old self.new }
    {
        let looks = self
            .tables
            .label_count
            .saturating_mul(budget.saturating_sub(1) as usize);
        if self.state.effect == 0 && FEW_LOOKS < looks {
            self.run_remembering(budget)
        } else {
            self.run_straight(budget)
        }
    }

    // A run that remembers from its first step. That nothing is forged is told before: with that test beside the loop, its steps took 3 % more instructions.
    #[inline(always)]
    fn run_remembering(&mut self, budget: u32) -> Ran
        requires effect { self.old.state.effect ≡ 0 }
        ensures called { Called (run_call budget) (lent_of self.old) (ran_answer result) (lent_of self.new) }
        ensures same { SameLent self.old self.new }
    {
        match self.take() {
            Ok((_, machine)) => {
                self.put_back(machine);
                self.run_on(budget)
            }
            Err(refusal) => refused(refusal),
        }
    }

    // A run that is not expected to turn back: what is looked up is not remembered until it does. Out of line: beside the choice, straight lines took 6 % more
    // instructions.
    #[inline(never)]
    fn run_straight(&mut self, budget: u32) -> Ran
        ensures called { Called (run_call budget) (lent_of self.old) (ran_answer result) (lent_of self.new) }
        ensures same { SameLent self.old self.new }
    {
        let (mut script, mut machine) = match self.take() {
            Ok(taken) => taken,
            Err(refusal) => return refused(refusal),
        };
        let ahead = machine.run_ahead(&mut script, budget);
        self.put_back(machine);
        match ahead {
            Ahead::Ended(ran) => ran,
            Ahead::TurnedBack(steps) => {
                let rest = self.run_on(budget - steps);
                Ran {
                    ended: rest.ended,
                    steps: steps + rest.steps,
                }
            }
        }
    }

    #[inline(never)]
    fn run_on(&mut self, budget: u32) -> Ran
        requires whole { forged (lent_of self.old) ≡ false }
        requires effect { self.old.state.effect ≡ 0 }
        ensures called { Called (run_call budget) (lent_of self.old) (ran_answer result) (lent_of self.new) }
        ensures steps { result.steps ≤ budget }
        ensures same { SameLent self.old self.new }
    {
        match self.tables.operator_count {
            0..=FEW => self.run_by_memo::<FEW, 0>(budget),
            ..=SOME => self.run_by_memo::<SOME, 0>(budget),
            ..=MANY => self.run_by_memo::<MANY, 0>(budget),
            _ => self.run_by_memo::<MOST, FIRST>(budget),
        }
    }

    // With the memo in a frame of its own: a function clears its locals when it begins.
    #[inline(never)]
    fn run_by_memo<const N: usize, const OWN: usize>(&mut self, budget: u32) -> Ran
        requires whole { forged (lent_of self.old) ≡ false }
        requires effect { self.old.state.effect ≡ 0 }
        requires places { OWN < N }
        requires memory { N < 2 ^ 32 }
        ensures called { Called (run_call budget) (lent_of self.old) (ran_answer result) (lent_of self.new) }
        ensures steps { result.steps ≤ budget }
        ensures same { SameLent self.old self.new }
    {
        let Ok((script, mut machine)) = self.take() else {
            unreachable!();
        };
        let mut script: Memo<'_, N, OWN> = Memo::new(script);
        let ran = machine.run(&mut script, budget);
        self.put_back(machine);
        ran
    }
}
