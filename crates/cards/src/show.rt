// A card: a text, how many operand words there are, and a list of calls.
use crate::calls::{Left, Named};
use eval::{Answer, Call, Eval, call_stack};
use listing::{Listing, Quoted};
use records::{LabelRecord, OperatorRecord, Record};
use start::Buffers;
use std::io;

/// The buffers of a card: its operators, its labels, and words of operands, entries and memory.
const OPERATORS: usize = 16;

const LABELS: usize = 4;

pub(crate) const OPERAND_WORDS: usize = 8;

const CALL_WORDS: usize = 4;

const MEMORY_WORDS: usize = 4;

/// A budget that no card uses up.
const BUDGET: u32 = 1_000_000;

fn print_script(rt: &impl Print, eval: &Eval<'_>) -> io::Result<()> {
    let tables = eval.tables;
    println!(rt;
        "compile: 0 {} {}",
        tables.operator_count, tables.label_count
    )?;
    print!(rt; "{}", Listing(tables))
}

// Each call with its operands, its answer, and next and both stacks as it leaves them.
fn make_all(rt: &impl Print, eval: &mut Eval<'_>, calls: &[Call]) -> io::Result<()> {
    for &call in calls {
        let answer = call.make(eval);
        println!(rt; "{}: {answer}, {}", Named(call), Left(eval))?;
    }
    Ok(())
}

// So many entries of the call stack, from the top on: by place, as the call asks for it.
fn print_entries(rt: &impl Print, eval: &Eval<'_>, count: usize) -> io::Result<()> {
    for place in 0..count {
        let answer = Answer::from(call_stack(eval.state.call_depth, eval.call_stack, place));
        println!(rt; "entry {place}: {answer}, {}", Left(eval))?;
    }
    Ok(())
}

/// Prints the text, its records, and what each call answers and leaves. At most `OPERAND_WORDS` are lent.
pub(crate) fn card(
    rt: &impl Print,
    text: &[u8],
    operand_words: usize,
    calls: &[Call],
) -> io::Result<()> {
    card_with_entries(rt, text, operand_words, calls, 0)
}

// No heap: buffers of fixed sizes.
/// And then so many entries of the call stack, from the top on.
pub(crate) fn card_with_entries(
    rt: &impl Print,
    text: &[u8],
    operand_words: usize,
    calls: &[Call],
    entries: usize,
) -> io::Result<()> {
    let mut operators = [9; OperatorRecord::WORDS * OPERATORS];
    let mut labels = [9; LabelRecord::WORDS * LABELS];
    let mut operand_stack = [9; OPERAND_WORDS];
    let mut call_stack = [9; CALL_WORDS];
    let mut memory = [9; MEMORY_WORDS];
    let buffers = Buffers {
        operators: &mut operators,
        labels: &mut labels,
        operand_stack: &mut operand_stack[..operand_words.min(OPERAND_WORDS)],
        call_stack: &mut call_stack,
        memory: &mut memory,
    };
    println!(rt; "{}", Quoted(text))?;
    match buffers.begin(text) {
        Err(error) => println!(rt; "compile: {} {} 0", error.number(), error.value()),
        Ok(mut eval) => {
            print_script(rt, &eval)?;
            make_all(rt, &mut eval, calls)?;
            print_entries(rt, &eval, entries)
        }
    }
}

/// A card with one run.
pub(crate) fn run(rt: &impl Print, text: &[u8]) -> io::Result<()> {
    card(rt, text, OPERAND_WORDS, &[Call::Run(BUDGET)])
}
