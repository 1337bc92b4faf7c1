// Steps.
#![tactic(auto, using(crate::proofs::Numbers::standing), unfolding(stack_assembly::specs::Step::step, stack_assembly::specs::Step::step_under, stack_assembly::specs::Step::settled, answers::specs::Effects::number))]

ghost use Rattle.std.specs.Prelude.{◌≡◌, IfOk, Err, Some, None};
ghost use Rattle.stack_assembly.specs.Script as definition;
ghost use Rattle.machine.specs.declared.steps.Ended.TheVariants.{Raised};
ghost use Rattle.machine.specs.Steps.{counted_by, Stepped};

use crate::machine::Machine;
use answers::{Effect, Refusal};
use script::Operators;
use store::Stop;

/// What ended a step or a run.
#[derive(Clone, Copy, PartialEq, Eq, Debug)]
pub enum Ended {
    /// An effect, with the index of the operator that raised it.
    Raised(Effect, u32),
    Refused(Refusal),
}

impl Ended {
    /// How many steps it counts for: none where it was refused.
    #[inline(always)]
    pub fn steps(self) -> u32
        ensures { result ≡ counted_by self }
    {
        match self {
            Ended::Raised(_, _) => 1,
            Ended::Refused(_) => 0,
        }
    }
}

impl From<Refusal> for Ended {
    ghost use Rattle.std.specs.Prelude.{◌≡◌};
    ghost use Rattle.machine.specs.declared.steps.Ended.TheVariants.{Refused};

    ghost from_gives = { λ r e. e ≡ Refused r };

    #[inline(always)]
    fn from(refusal: Refusal) -> Ended {
        Ended::Refused(refusal)
    }
}

impl Machine<'_> {
    // Where an effect stands, next advances, and no more is done.
    #[inline(always)]
    pub(crate) fn stand(&mut self, effect: Effect) -> Ended
        requires { self.old.effect ≡ Some effect }
        ensures ended { result ≡ Raised effect self.new.effect_operator }
        ensures stepped { (s : definition.Script) → Stepped s (Err result) self.old self.new }
    {
        self.next = self.next.wrapping_add(1);
        Ended::Raised(effect, self.effect_operator)
    }

    // A step where none stands. Next does not advance in one that is refused.
    #[inline(always)]
    pub(crate) fn make_step<S: Operators>(&mut self, script: &mut S) -> Result<(), Ended>
        requires { self.old.effect ≡ None }
        ensures stepped { Stepped (S.says script.old) result self.old self.new }
        ensures script { S.says script.new ≡ S.says script.old }
        ensures effect { IfOk result (λ _. self.new.effect ≡ None) }
    {
        let operator = self.next;
        self.next = operator.wrapping_add(1);
        match self.evaluate(script, operator) {
            Ok(()) => Ok(()),
            Err(Stop::Raised(effect)) => {
                self.effect = Some(effect);
                self.effect_operator = operator;
                Err(Ended::Raised(effect, operator))
            }
            Err(Stop::Refused(refusal)) => {
                self.next = operator;
                Err(Ended::Refused(refusal))
            }
        }
    }

    /// One step. An effect that is raised, or that stood before, stands with its operator; a refused step leaves all as it was.
    #[inline(always)]
    pub fn step<S: Operators>(&mut self, script: &mut S) -> Result<(), Ended>
        ensures stepped { Stepped (S.says script.old) result self.old self.new }
        ensures script { S.says script.new ≡ S.says script.old }
    {
        if let Some(effect) = self.effect {
            return Err(self.stand(effect));
        }
        self.make_step(script)
    }
}
