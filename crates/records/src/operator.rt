// An operator's record: four words, its kind, the range of its source, and an integer's bits.
ghost use Rattle.std.specs.Prelude.{◌≡◌, ◌<◌, ◌≤◌, true, false, IfOk, OnOk, OnErr, length};
ghost use Rattle.stack_assembly.specs.Script.{damaged_operator, operator_capacity, operator_in};
ghost use Rattle.records.specs.Records.{operator_of, operator_at};

use crate::record::{Damaged, Record};
use std::ops::Range;

/// What an operator is; its number is the first word of its record.
#[derive(Clone, Copy, Debug, PartialEq, Eq)]
pub enum OperatorKind {
    /// One of the words, or no word at all.
    Identifier,
    /// A number of 32 bits.
    Integer,
    /// `@` and the name of a label.
    Reference,
}

// Numbers too, for a fetch, which tests the words of a record by them before it reads the record; and the match that reads a kind has them.
impl OperatorKind {
    /// The number of [`OperatorKind::Identifier`].
    pub const IDENTIFIER: u32 = 0;
    /// The number of [`OperatorKind::Integer`].
    pub const INTEGER: u32 = 1;
    /// The number of [`OperatorKind::Reference`].
    pub const REFERENCE: u32 = 2;
}

impl From<OperatorKind> for u32 {
    ghost use Rattle.std.specs.Prelude.{◌≡◌};
    ghost use Rattle.records.specs.Records.{kind_word};

    ghost from_gives = { λ kind word. word ≡ kind_word kind };

    #[inline(always)]
    fn from(kind: OperatorKind) -> u32 {
        match kind {
            OperatorKind::Identifier => OperatorKind::IDENTIFIER,
            OperatorKind::Integer => OperatorKind::INTEGER,
            OperatorKind::Reference => OperatorKind::REFERENCE,
        }
    }
}

impl TryFrom<u32> for OperatorKind {
    ghost use Rattle.std.specs.Prelude.{◌≡◌, ◌<◌, MatchResult};
    ghost use Rattle.records.specs.Records.{kind_word};

    type Error = Damaged;

    ghost try_from_gives = { λ word r. MatchResult r (λ kind. kind_word kind ≡ word) (λ _. 2 < word) };

    #[inline(always)]
    fn try_from(word: u32) -> Result<OperatorKind, Damaged> {
        match word {
            OperatorKind::IDENTIFIER => Ok(OperatorKind::Identifier),
            OperatorKind::INTEGER => Ok(OperatorKind::Integer),
            OperatorKind::REFERENCE => Ok(OperatorKind::Reference),
            _ => Err(Damaged),
        }
    }
}

/// An operator: its source is the part of the text from byte `start` up to `end`.
#[derive(Clone, Copy, Debug, PartialEq, Eq)]
pub struct OperatorRecord {
    pub kind: OperatorKind,
    pub start: u32,
    pub end: u32,
    /// The integer's 32 bits. For the other kinds compile writes 0; one that was read has what stands in the table.
    // Not in the enum: what stands there of another kind is no damage, and `operator_of` gives all four words.
    pub value: u32,
}

impl OperatorRecord {
    /// The words of the record at an index of a table, damaged or not.
    #[inline(always)]
    pub fn raw(table: &[u32], index: usize) -> [u32; Self::WORDS]
        requires { index < operator_capacity table.now }
        ensures { operator_in result ≡ operator_at index table.now }
    {
        let at = index * Self::WORDS;
        [table[at], table[at + 1], table[at + 2], table[at + 3]]
    }

    /// The record at an index of a table. One that is read has a range in the text, which is not empty.
    #[inline(always)]
    pub fn read(table: &[u32], index: usize, text: &[u8]) -> Result<OperatorRecord, Damaged>
        requires { index < operator_capacity table.now }
        ensures record { IfOk result (λ r. operator_at index table.now ≡ operator_of r) }
        ensures whole { OnOk result (damaged_operator text.now (operator_at index table.now) ≡ false) }
        ensures damaged { OnErr result (damaged_operator text.now (operator_at index table.now) ≡ true) }
        ensures range { IfOk result (λ r. (r.start < r.end) × (r.end ≤ length text.now)) }
    {
        let [kind, start, end, value] = Self::raw(table, index);
        let kind = OperatorKind::try_from(kind)?;
        if end <= start || text.len() < end as usize {
            return Err(Damaged);
        }
        Ok(OperatorRecord {
            kind,
            start,
            end,
            value,
        })
    }

    // As `LabelRecord::range`: in the trait it would need the fields by methods, more lines than it saves.
    /// Where its source stands in the text.
    #[inline(always)]
    pub fn range(self) -> Range<usize>
        ensures { (result.start ≡ self.start) × (result.end ≡ self.end) }
    {
        self.start as usize..self.end as usize
    }
}

impl Record for OperatorRecord {
    ghost use Rattle.stack_assembly.specs.Script.{operator_words};
    ghost use Rattle.records.specs.Records.{operator_of};
    ghost use Rattle.std.proofs.Common.{rules};

    const WORDS: usize = 4;

    ghost WORDS = { 4 };

    ghost words = { λ r. operator_words (operator_of r) };

    #[inline(always)]
    fn write(self, table: &mut [u32], index: usize) {
        let at = index * Self::WORDS;
        table[at] = u32::from(self.kind);
        table[at + 1] = self.start;
        table[at + 2] = self.end;
        table[at + 3] = self.value;
    }

    ghost wide = { Prim.search rules };
}
