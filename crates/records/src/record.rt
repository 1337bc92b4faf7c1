// What the records of both tables have in common.
ghost use Rattle.std.specs.Prelude.{◌≡◌, ◌<◌, ◌≤◌, ◌+◌, ◌*◌, ◌/◌, ℕ, List, length, take, IfOk, OnOk, OnErr};
ghost use Rattle.std.proofs.lemmas.List.Edits.{sets};

use answers::Refusal;

/// A record that is damaged: of no kind, or with a range that is reversed or not in the text, or, an operator's, empty.
#[derive(Clone, Copy, Debug, PartialEq, Eq)]
pub struct Damaged;

/// More records are counted than their table has room for.
#[derive(Clone, Copy, Debug, PartialEq, Eq)]
pub struct OverCapacity;

impl From<OverCapacity> for Refusal {
    ghost use Rattle.std.specs.Prelude.{◌≡◌};
    ghost use Rattle.answers.specs.declared.refusal.Refusal.TheVariants.{Forged};

    ghost from_gives = { λ e r. r ≡ Forged };

    #[inline(always)]
    fn from(_: OverCapacity) -> Refusal {
        Refusal::Forged
    }
}

/// What stands in a table: the record at index `i` is the words from `i * WORDS` on.
pub trait Record: Copy {
    /// How many words of its table a record takes.
    const WORDS: usize;

    ghost WORDS: { ℕ };

    ghost words: { Self → List ℕ };

    /// Writes the record at its index, and no other word.
    fn write(self, table: &mut [u32], index: usize)
        requires { index * WORDS + WORDS ≤ length table.old }
        ensures { table.new ≡ sets table.old (index * WORDS) (words self) };

    /// How many records a table has room for; the words after the last of them are in none.
    #[inline(always)]
    final fn capacity(table: &[u32]) -> usize
        ensures { result ≡ length table.now / WORDS }
    {
        table.len() / Self::WORDS
    }

    /// The words of as many records as count, from the front of their table.
    #[inline(always)]
    #[tactic(auto, using(crate::proofs::Counted::words_fit))]
    final fn counted<'t>(table: &'t [u32], count: usize) -> Result<&'t [u32], OverCapacity>
        ensures counted { IfOk result (λ records. records.now ≡ take (WORDS * count) table.now) }
        ensures fits { OnOk result (count ≤ length table.now / WORDS) }
        ensures over { OnErr result (length table.now / WORDS < count) }
    {
        if Self::capacity(table) < count {
            return Err(OverCapacity);
        }
        Ok(&table[..Self::WORDS * count])
    }

    ghost wide: { 0 < WORDS };
}
