// What compile makes of a text: its answer, the records, and the source of each operator. The tables are filled with nines at first.
use listing::{Listing, Quoted, Words};
use records::{LabelRecord, OperatorRecord, Record, Tables};
use std::io;

/// How many operators and labels a text has at most.
const OPERATORS: usize = 32;

const LABELS: usize = 8;

// A text and two lent tables, as `compile` takes them.
/// Prints the answer, and the records where there are any.
pub(crate) fn compiled(
    rt: &impl Print,
    text: &[u8],
    operators: &mut [u32],
    labels: &mut [u32],
) -> io::Result<()> {
    match compile::compile(text, operators, labels) {
        Err(error) => println!(rt; "refused {} {}", error.number(), error.value()),
        Ok(counts) => {
            println!(rt; "accepted {} {}", counts.operators, counts.labels)?;
            let tables = Tables {
                text,
                operators,
                labels,
                operator_count: counts.operators,
                label_count: counts.labels,
            };
            print!(rt; "{}", Listing(tables))
        }
    }
}

/// Each text, in tables of `OPERATORS` and `LABELS`.
pub(crate) fn texts(rt: &impl Print, texts: &[&[u8]]) -> io::Result<()> {
    for text in texts {
        println!(rt; "{}", Quoted(text))?;
        compiled(
            rt,
            text,
            &mut [9; OperatorRecord::WORDS * OPERATORS],
            &mut [9; LabelRecord::WORDS * LABELS],
        )?;
    }
    Ok(())
}

/// With every word of both tables after it.
pub(crate) fn tables(
    rt: &impl Print,
    text: &[u8],
    operators: &mut [u32],
    labels: &mut [u32],
) -> io::Result<()> {
    println!(rt; "{}", Quoted(text))?;
    compiled(rt, text, operators, labels)?;
    println!(rt; "operators{}", Words(operators))?;
    println!(rt; "labels{}", Words(labels))
}
