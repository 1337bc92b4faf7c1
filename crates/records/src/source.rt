// The source of an operator: where it stands in the text, and its bytes.
use crate::operator::OperatorRecord;
use crate::record::{Damaged, Record};
use crate::tables::Tables;
use answers::Refusal;
use std::ops::Range;

impl<'a> Tables<'a> {
    ghost use Rattle.std.specs.Prelude.{◌≡◌, ◌<◌, ◌≤◌, IfOk, length};
    ghost use Rattle.records.specs.Lent.{tables_of};
    ghost use Rattle.records.specs.Source.{bytes_in, located, source_at, source_of};

    /// Where the source of the operator with this index stands in the text: the offsets of its first byte and of the byte after its last.
    ///
    /// A forged count of operators is told before an index out of range, and that before a damaged record. The labels are not asked.
    #[tactic(auto, using(crate::proofs::Sources::forged, crate::proofs::Sources::within, crate::proofs::Sources::absent, crate::proofs::Sources::damaged, crate::proofs::Sources::whole))]
    pub fn source(self, index: u32) -> Result<Range<usize>, Refusal>
        ensures located { located result ≡ source_at (tables_of self.entry) index }
        ensures bytes { bytes_in self.entry.text.now result ≡ (source_of (tables_of self.entry) index).bytes }
        ensures range { IfOk result (λ r. (r.start < r.end) × (r.end ≤ length self.entry.text.now)) }
    {
        let operators = OperatorRecord::counted(self.operators, self.operator_count)?;
        let place = index as usize;
        if self.operator_count <= place {
            return Err(Refusal::Absent(place));
        }
        match OperatorRecord::read(operators, place, self.text) {
            Ok(record) => Ok(record.range()),
            Err(Damaged) => Err(Refusal::Damaged(place)),
        }
    }

    /// The source itself, as that part of the text; empty where there is none.
    #[tactic(auto, using(base::proofs::Parts::between))]
    pub fn map_operator_to_source(self, index: u32) -> &'a [u8]
        ensures { result.now ≡ (source_of (tables_of self.entry) index).bytes }
    {
        let Ok(range) = self.source(index) else {
            return &self.text[..0];
        };
        &self.text[range]
    }
}
