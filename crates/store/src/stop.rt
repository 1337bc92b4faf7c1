// What stops an evaluation.
ghost use Rattle.std.specs.Prelude.{◌≡◌};

use answers::{Effect, Refusal};
use word::DivisionError;

/// What stops an evaluation.
#[derive(Clone, Copy, PartialEq, Eq, Debug)]
pub enum Stop {
    Raised(Effect),
    Refused(Refusal),
}

impl From<Effect> for Stop {
    ghost use Rattle.std.specs.Prelude.{◌≡◌};
    ghost use Rattle.store.specs.declared.stop.Stop.TheVariants.{Raised};

    ghost from_gives = { λ e s. s ≡ Raised e };

    #[inline(always)]
    fn from(effect: Effect) -> Stop {
        Stop::Raised(effect)
    }
}

impl From<Refusal> for Stop {
    ghost use Rattle.std.specs.Prelude.{◌≡◌};
    ghost use Rattle.store.specs.declared.stop.Stop.TheVariants.{Refused};

    ghost from_gives = { λ r s. s ≡ Refused r };

    #[inline(always)]
    fn from(refusal: Refusal) -> Stop {
        Stop::Refused(refusal)
    }
}

impl From<DivisionError> for Stop {
    ghost use Rattle.std.specs.Prelude.{◌≡◌};
    ghost use Rattle.store.specs.declared.stop.Stop.TheVariants.{Raised};
    ghost use Rattle.store.specs.Stops.{division_effect};

    ghost from_gives = { λ e s. s ≡ Raised (division_effect e) };

    #[inline(always)]
    fn from(error: DivisionError) -> Stop {
        Stop::Raised(match error {
            DivisionError::ByZero => Effect::DivisionByZero,
            DivisionError::Overflow => Effect::IntegerOverflow,
        })
    }
}
