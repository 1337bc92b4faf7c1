// A count of bits and rotations: std's, which promise the same in other words.
ghost use Rattle.std.specs.Prelude.{◌≡◌};
ghost use Rattle.word.specs.Word.{count_of_ones, rotated_left, rotated_right};

/// How many bits of `a` are set.
#[tactic(auto, using(crate::proofs::Digits::ones_within))]
pub fn count_ones(a: u32) -> u32
    ensures { result ≡ count_of_ones a }
{
    a.count_ones()
}

/// The bits of `a` moved up by `b` modulo 32 places; those that leave at the top enter at the bottom.
#[tactic(auto, using(crate::proofs::Digits::left))]
pub fn rotate_left(a: u32, b: u32) -> u32
    ensures { result ≡ rotated_left a b }
{
    a.rotate_left(b)
}

/// The bits of `a` moved down by `b` modulo 32 places; those that leave at the bottom enter at the top.
#[tactic(auto, using(crate::proofs::Digits::right))]
pub fn rotate_right(a: u32, b: u32) -> u32
    ensures { result ≡ rotated_right a b }
{
    a.rotate_right(b)
}
