// The effects.
#![tactic(auto, unfolding(crate::specs::Effects::number))]

ghost use Rattle.std.specs.Prelude.{◌≡◌, ◌<◌, MatchResult};
ghost use Rattle.answers.specs.Effects.{number, standing_number, last_effect};

/// An event that a script triggers, in the order of the effects' numbers.
#[derive(Clone, Copy, PartialEq, Eq, Debug)]
pub enum Effect {
    AssertionFailed,
    DivisionByZero,
    IntegerOverflow,
    InvalidAddress,
    InvalidOperandStackIndex,
    InvalidReference,
    OperandStackUnderflow,
    OutOfOperators,
    Return,
    UnknownIdentifier,
    Yield,
}

impl Effect {
    // A method: `u32::from(effect)` would not say which number it gives.
    /// Its number, from 1 to 11.
    #[inline(always)]
    pub fn number(self) -> u32
        ensures { result ≡ number self }
    {
        match self {
            Effect::AssertionFailed => 1,
            Effect::DivisionByZero => 2,
            Effect::IntegerOverflow => 3,
            Effect::InvalidAddress => 4,
            Effect::InvalidOperandStackIndex => 5,
            Effect::InvalidReference => 6,
            Effect::OperandStackUnderflow => 7,
            Effect::OutOfOperators => 8,
            Effect::Return => 9,
            Effect::UnknownIdentifier => 10,
            Effect::Yield => 11,
        }
    }
}

// A function, as a crate may write no From for std's Option.
/// The number of the effect that stands, 0 where none does.
#[inline(always)]
pub fn number_of(standing: Option<Effect>) -> u32
    ensures { result ≡ standing_number standing }
{
    match standing {
        None => 0,
        Some(effect) => effect.number(),
    }
}

/// No effect has that number.
#[derive(Clone, Copy, PartialEq, Eq, Debug)]
pub struct NoEffect;

// The C interface has it by its number; here it becomes an enum.
/// The effect that stands, by its number; 0 says that none does.
#[inline(always)]
pub fn standing(number: u32) -> Result<Option<Effect>, NoEffect>
    ensures { MatchResult result (λ effect. standing_number effect ≡ number) (λ _. last_effect < number) }
{
    match number {
        0 => Ok(None),
        1 => Ok(Some(Effect::AssertionFailed)),
        2 => Ok(Some(Effect::DivisionByZero)),
        3 => Ok(Some(Effect::IntegerOverflow)),
        4 => Ok(Some(Effect::InvalidAddress)),
        5 => Ok(Some(Effect::InvalidOperandStackIndex)),
        6 => Ok(Some(Effect::InvalidReference)),
        7 => Ok(Some(Effect::OperandStackUnderflow)),
        8 => Ok(Some(Effect::OutOfOperators)),
        9 => Ok(Some(Effect::Return)),
        10 => Ok(Some(Effect::UnknownIdentifier)),
        11 => Ok(Some(Effect::Yield)),
        _ => Err(NoEffect),
    }
}
