// The examples in the comments of effect.rs and eval.rs, and what the other calls do.
use crate::show::{OPERAND_WORDS, card, card_with_entries, run};
use eval::Call::{Clear, Pop, Push, Read, Run, Step, Write};
use std::io;

pub(crate) fn examples(rt: &impl Print) -> io::Result<()> {
    println!(rt; "effect.rs")?;
    card(
        rt,
        b"\n    0\n\n    increment:\n        1 +\n        yield\n        @increment jump\n",
        OPERAND_WORDS,
        &[Run(1000), Clear, Run(1000)],
    )?;
    println!(rt; "eval.rs")?;
    run(rt, b"1 2 +")
}

pub(crate) fn stacks(rt: &impl Print) -> io::Result<()> {
    println!(rt; "stacks")?;
    card(rt, b"+", 2, &[Push(7), Push(8), Push(9), Step, Pop, Pop])?;
    card_with_entries(
        rt,
        b"@f call f: @g call g: yield",
        OPERAND_WORDS,
        &[Run(9)],
        3,
    )
}

/// Words that are released: before an effect, by `drop`, by `return`, by the host, and before a run is refused.
pub(crate) fn released(rt: &impl Print) -> io::Result<()> {
    println!(rt; "released")?;
    run(rt, b"1 2 call_either")?;
    run(rt, b"7 0 /")?;
    run(rt, b"7 8 6 1 drop")?;
    run(rt, b"@a call yield a: return")?;
    card(rt, b"", OPERAND_WORDS, &[Push(7), Push(8), Pop, Pop])?;
    card(rt, b"1 2 + 3 4", OPERAND_WORDS, &[Run(3), Run(2)])
}

pub(crate) fn memory(rt: &impl Print) -> io::Result<()> {
    println!(rt; "memory")?;
    card(
        rt,
        b"3 0 read 1 + write",
        OPERAND_WORDS,
        &[Read(0), Write(0, 41), Run(9), Read(3), Read(4), Write(4, 1)],
    )
}
