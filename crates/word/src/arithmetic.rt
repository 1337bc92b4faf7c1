// Products, of which the low 32 bits are kept.
ghost use Rattle.std.specs.Prelude.{◌≡◌};
ghost use Rattle.word.specs.Word.{wrapping_mul};

// How many words there are.
const WORDS: u64 = u32::MAX as u64 + 1;

/// The low 32 bits of the product.
#[inline(always)]
#[tactic(auto, unfolding(crate::specs::Word::wrapping_mul))]
pub fn wrapping_mul(a: u32, b: u32) -> u32
    ensures { result ≡ wrapping_mul a b }
{
    (a as u64 * b as u64 % WORDS) as u32
}
