// The refusals of calls.
ghost use Rattle.std.specs.Prelude.{◌≡◌};
ghost use Rattle.answers.specs.Refusals.{refusal_number, refusal_value};

use crate::effect::NoEffect;

/// Why a call was not made, or why a run went no further.
#[derive(Clone, Copy, PartialEq, Eq, Debug)]
pub enum Refusal {
    /// What is lent cannot be: a depth or a count over its capacity, an effect with a number above 11, an entry 0 of the call stack.
    Forged,
    /// A record of the script that is needed is damaged, at this place of its table.
    Damaged(usize),
    /// The operand stack holds so many words, and no more.
    OperandStackFull(usize),
    /// The call stack holds so many words, and no more.
    CallStackFull(usize),
    /// A run's budget is used, before this operator.
    BudgetUsed(u32),
    /// There is no operand to pop.
    OperandStackEmpty,
    /// There is no such address of the memory, index of an operator, or place of the call stack.
    Absent(usize),
}

impl Refusal {
    // A refusal has two numbers, so methods: one From could not say which.
    /// Its number, from 25 to 31.
    #[inline(always)]
    pub fn number(self) -> u32
        ensures { result ≡ refusal_number self }
    {
        match self {
            Refusal::Forged => 25,
            Refusal::Damaged(_) => 26,
            Refusal::OperandStackFull(_) => 27,
            Refusal::CallStackFull(_) => 28,
            Refusal::BudgetUsed(_) => 29,
            Refusal::OperandStackEmpty => 30,
            Refusal::Absent(_) => 31,
        }
    }

    /// The value that is answered with it.
    #[inline(always)]
    pub fn value(self) -> usize
        ensures { result ≡ refusal_value self }
    {
        match self {
            Refusal::Forged => 0,
            Refusal::Damaged(place) => place,
            Refusal::OperandStackFull(depth) => depth,
            Refusal::CallStackFull(depth) => depth,
            Refusal::BudgetUsed(next) => next as usize,
            Refusal::OperandStackEmpty => 0,
            Refusal::Absent(place) => place,
        }
    }
}

impl From<NoEffect> for Refusal {
    ghost use Rattle.std.specs.Prelude.{◌≡◌};
    ghost use Rattle.answers.specs.declared.refusal.Refusal.TheVariants.{Forged};

    ghost from_gives = { λ e r. r ≡ Forged };

    #[inline(always)]
    fn from(_: NoEffect) -> Refusal {
        Refusal::Forged
    }
}
