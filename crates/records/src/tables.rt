// What later calls are lent of a script, and the script in it.
use crate::label::LabelRecord;
use crate::operator::OperatorRecord;
use crate::record::{OverCapacity, Record};
use crate::script::Script;

/// A text with the tables that compile wrote, and how many records of each count. Whatever a host puts into it, each call answers.
#[derive(Clone, Copy)]
#[repr(C)]
pub struct Tables<'a> {
    pub text: &'a [u8],
    /// Four words a record.
    pub operators: &'a [u32],
    /// Three words a record.
    pub labels: &'a [u32],
    pub operator_count: usize,
    pub label_count: usize,
}

impl<'a> Tables<'a> {
    ghost use Rattle.records.specs.Lent.{tables_of, HasScript};

    /// The script of the records that count; an error where a count is over its table's capacity.
    #[inline(always)]
    pub fn script(self) -> Result<Script<'a>, OverCapacity>
        ensures { HasScript (tables_of self.entry) result }
    {
        Ok(Script {
            text: self.text,
            operators: OperatorRecord::counted(self.operators, self.operator_count)?,
            labels: LabelRecord::counted(self.labels, self.label_count)?,
        })
    }
}
