// A script's records, a line each: an operator's with its source, a label's with its name.
ghost use Rattle.std.specs.Prelude.{◌<◌};
ghost use Rattle.stack_assembly.specs.Script.{label_capacity};

use crate::text::{Quoted, Words};
use compile::LONGEST_TEXT;
use records::{Damaged, LabelRecord, OperatorRecord, Record, Tables};
use std::fmt;

/// What is printed of a script: of its tables no more than they hold, whatever the counts say.
#[derive(Clone, Copy)]
pub struct Listing<'a>(pub Tables<'a>);

// Nothing where the record is damaged.
fn name_of<'a>(labels: &[u32], index: usize, text: &'a [u8]) -> &'a [u8]
    requires { index < label_capacity labels.now }
{
    match LabelRecord::read(labels, index, text) {
        Ok(label) => &text[label.range()],
        Err(Damaged) => &text[..0],
    }
}

impl fmt::Display for Listing<'_> {
    fn fmt<W: fmt::Write>(&self, f: &mut fmt::Formatter<W>) -> fmt::Result {
        let Tables {
            text,
            operators,
            labels,
            ..
        } = self.0;
        // A text has no more operators than bytes.
        let operator_count = self
            .0
            .operator_count
            .min(OperatorRecord::capacity(operators))
            .min(LONGEST_TEXT);
        // By index, as the source is asked by it.
        for i in 0..operator_count as u32 {
            let at = i as usize * OperatorRecord::WORDS;
            let words = Words(&operators[at..at + OperatorRecord::WORDS]);
            let source = Quoted(self.0.map_operator_to_source(i));
            writeln!(f, "operator{words} {source}")?;
        }
        let label_count = self.0.label_count.min(LabelRecord::capacity(labels));
        // By index, as the record is read by it.
        for i in 0..label_count {
            let at = i * LabelRecord::WORDS;
            let words = Words(&labels[at..at + LabelRecord::WORDS]);
            let name = Quoted(name_of(labels, i, text));
            writeln!(f, "label{words} {name}")?;
        }
        Ok(())
    }
}
