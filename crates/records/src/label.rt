// A label's record: three words, the range of its name, and the operator that it names.
ghost use Rattle.std.specs.Prelude.{◌≡◌, ◌<◌, ◌≤◌, true, false, IfOk, OnOk, OnErr, length};
ghost use Rattle.stack_assembly.specs.Script.{damaged_label, label_capacity};
ghost use Rattle.records.specs.Records.{label_of, label_at};

use crate::record::{Damaged, Record};
use std::ops::Range;

/// A label: its name is the part of the text from byte `start` up to `end`, perhaps empty.
#[derive(Clone, Copy, Debug, PartialEq, Eq)]
pub struct LabelRecord {
    pub start: u32,
    pub end: u32,
    /// The index of the operator after it, which is the operator count where there is none.
    pub operator: u32,
}

impl LabelRecord {
    /// The record at an index of a table. One that is read has a range in the text.
    #[inline(always)]
    pub fn read(table: &[u32], index: usize, text: &[u8]) -> Result<LabelRecord, Damaged>
        requires { index < label_capacity table.now }
        ensures record { IfOk result (λ r. label_at index table.now ≡ label_of r) }
        ensures whole { OnOk result (damaged_label text.now (label_at index table.now) ≡ false) }
        ensures damaged { OnErr result (damaged_label text.now (label_at index table.now) ≡ true) }
        ensures range { IfOk result (λ r. (r.start ≤ r.end) × (r.end ≤ length text.now)) }
    {
        let at = index * Self::WORDS;
        let start = table[at];
        let end = table[at + 1];
        if end < start || text.len() < end as usize {
            return Err(Damaged);
        }
        Ok(LabelRecord {
            start,
            end,
            operator: table[at + 2],
        })
    }

    // As `OperatorRecord::range`, of other fields.
    /// Where its name stands in the text.
    #[inline(always)]
    pub fn range(self) -> Range<usize>
        ensures { (result.start ≡ self.start) × (result.end ≡ self.end) }
    {
        self.start as usize..self.end as usize
    }
}

impl Record for LabelRecord {
    ghost use Rattle.stack_assembly.specs.Script.{label_words};
    ghost use Rattle.records.specs.Records.{label_of};
    ghost use Rattle.std.proofs.Common.{rules};

    const WORDS: usize = 3;

    ghost WORDS = { 3 };

    ghost words = { λ r. label_words (label_of r) };

    #[inline(always)]
    fn write(self, table: &mut [u32], index: usize) {
        let at = index * Self::WORDS;
        table[at] = self.start;
        table[at + 1] = self.end;
        table[at + 2] = self.operator;
    }

    ghost wide = { Prim.search rules };
}
