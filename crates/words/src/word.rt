// The 30 words, and the look-up of a word by its name.
ghost use Rattle.std.specs.Prelude.{◌≡◌, ◌≢◌, ◌≤◌, ◌<◌, ◌+◌, ◌-◌, MatchOption, None, length, take};
ghost use Rattle.std.specs.Bool.{MatchBool};
ghost use Rattle.words.specs.Words.{words, lookup};
ghost use Rattle.words.specs.Places.{spelled, number, Begins, Spells, SpellsNone};

use crate::table::{WORDS, place_of, placed};

/// A word of the language, which is an operator. `WORDS` has their names, in this order.
#[derive(Clone, Copy, PartialEq, Eq, Debug)]
pub enum Word {
    Mul,
    Add,
    Sub,
    Lt,
    Le,
    Eq,
    Gt,
    Ge,
    And,
    Or,
    Xor,
    RotateLeft,
    RotateRight,
    ShiftLeft,
    ShiftRight,
    CountOnes,
    LeadingZeros,
    TrailingZeros,
    Copy,
    Drop,
    Div,
    Read,
    Write,
    Jump,
    JumpIf,
    Call,
    CallEither,
    Return,
    Assert,
    Yield,
}

impl Word {
    // Its row in the table. A method, so that its clause tells callers which number `as u8` gives.
    #[inline(always)]
    fn number(self) -> u8
        ensures { result ≡ number self }
    {
        self as u8
    }

    #[inline(always)]
    fn is_named(self, name: &[u8]) -> bool
        ensures { MatchBool result (spelled self ≡ name.now) (spelled self ≢ name.now) }
    {
        WORDS[self.number() as usize].is_named(name)
    }

    // Whether its name is the first n of these bytes, at most eight.
    #[inline(always)]
    fn begins(self, bytes: &[u8; 8], n: usize) -> bool
        ensures { MatchBool result (Begins bytes.now n self) (n ≤ 8 → spelled self ≢ take n bytes.now) }
    {
        WORDS[self.number() as usize].begins(u64::from_le_bytes(*bytes), n)
    }

    /// The word of this name.
    #[tactic(auto, using(crate::proofs::Rows::no_word, crate::proofs::Rows::no_name))]
    pub fn from_name(name: &[u8]) -> Option<Word>
        ensures { result ≡ lookup name.now words }
    {
        let place = place_of(*name.first()?, name.len());
        let likely = placed(place);
        if likely.is_named(name) {
            return Some(likely);
        }
        let other = placed(place ^ 1);
        if other.is_named(name) {
            return Some(other);
        }
        None
    }

    /// The word that this part of the text spells, if it has at most eight letters. Neither the part nor its end need lie within
    /// the text: where a word is answered, they do.
    #[inline(always)]
    pub fn short(text: &[u8], start: u32, end: u32) -> Option<Word>
        requires { start + 8 ≤ length text.now }
        ensures { MatchOption result (SpellsNone text.now start end) (Spells text.now start end) }
    {
        let bytes = text[start as usize..].first_chunk::<8>()?;
        let n = (end as usize).wrapping_sub(start as usize);
        let place = place_of(bytes[0], n);
        let likely = placed(place);
        if likely.begins(bytes, n) {
            return Some(likely);
        }
        let other = placed(place ^ 1);
        if other.begins(bytes, n) {
            return Some(other);
        }
        None
    }
}
