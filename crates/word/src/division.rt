// The signed division of words.
ghost use Rattle.std.specs.Prelude.{◌≡◌};
ghost use Rattle.word.specs.Word.{divide};
ghost use Rattle.word.specs.Answers.{division_of};

const LEAST: u32 = 1 << 31;

const MINUS_ONE: u32 = u32::MAX;

/// Why two words have no quotient.
#[derive(Clone, Copy, PartialEq, Eq, Debug)]
pub enum DivisionError {
    /// By zero.
    ByZero,
    /// Of -2147483648 by -1: no word holds 2147483648.
    Overflow,
}

/// The quotient, rounded toward zero, and the remainder, which has the sign of `a`.
#[inline(always)]
#[tactic(auto, unfolding(crate::specs::Word::divide), using(crate::proofs::Casts::quotient_kept, crate::proofs::Casts::remainder_kept))]
pub fn divide(a: u32, b: u32) -> Result<(u32, u32), DivisionError>
    ensures { division_of result ≡ divide a b }
{
    if b == 0 {
        return Err(DivisionError::ByZero);
    }
    if a == LEAST && b == MINUS_ONE {
        return Err(DivisionError::Overflow);
    }
    let a = a.cast_signed();
    let b = b.cast_signed();
    Ok(((a / b).cast_unsigned(), (a % b).cast_unsigned()))
}
