//! The program tally: the script on standard input, run once; prints the answer, then each operand from the bottom up.
#![tactic(auto)]

mod tally;

use records::{LabelRecord, OperatorRecord, Record};
use start::Buffers;
use std::io;
use std::io::Read;
use tally::Tally;

/// One byte more than a text may have: a longer one is seen to be too long.
const TEXT_BYTES: usize = 65536;

/// How many operators and labels a script may have, and how deep calls may go.
const OPERATORS: usize = 4096;

const LABELS: usize = 1024;

const CALLS: usize = 256;

// No heap: buffers of fixed sizes.
fn main(rt: HostRuntime) -> io::Result<()> {
    let mut text = [0; TEXT_BYTES];
    let mut operators = [0; OperatorRecord::WORDS * OPERATORS];
    let mut labels = [0; LabelRecord::WORDS * LABELS];
    let mut operand_stack = [0; 1024];
    let mut call_stack = [0; CALLS];
    let mut memory = [0; 1024];
    let read = io::copy(&mut rt.reader().take(TEXT_BYTES as u64), &mut &mut text[..])?;
    let length = text.len().min(read as usize);
    let buffers = Buffers {
        operators: &mut operators,
        labels: &mut labels,
        operand_stack: &mut operand_stack,
        call_stack: &mut call_stack,
        memory: &mut memory,
    };
    print!(rt; "{}", Tally::of_text(&text[..length], buffers))
}
