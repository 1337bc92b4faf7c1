// The thirteen cards, each with the text and the calls of its rule.
use crate::show::{OPERAND_WORDS, card, card_with_entries, run};
use eval::Call::{Clear, Run, Step};
use std::io;

fn cards_1_to_5(rt: &impl Print) -> io::Result<()> {
    println!(rt; "card 1")?;
    card(rt, b"", OPERAND_WORDS, &[Run(1)])?;
    println!(rt; "card 2")?;
    run(rt, b"1 2 +")?;
    println!(rt; "card 3")?;
    run(rt, b"0x80000000 0x-1 4294967295")?;
    card(
        rt,
        b"0x 0X1 4294967296",
        OPERAND_WORDS,
        &[Run(9), Clear, Run(9), Clear, Run(9)],
    )?;
    println!(rt; "card 4")?;
    run(rt, b":: @a:")?;
    println!(rt; "card 5")?;
    card(rt, b"@a a: 1 a: 2", OPERAND_WORDS, &[Step, Run(9)])
}

fn cards_6_to_9(rt: &impl Print) -> io::Result<()> {
    println!(rt; "card 6")?;
    card_with_entries(rt, b"call", OPERAND_WORDS, &[Run(9)], 2)?;
    println!(rt; "card 7")?;
    run(rt, b"-7 2 /")?;
    run(rt, b"-2147483648 -1 /")?;
    println!(rt; "card 8")?;
    run(rt, b"1 32 shift_left")?;
    run(rt, b"-1 -1 shift_right")?;
    println!(rt; "card 9")?;
    run(rt, b"4294967295 jump")
}

fn cards_10_to_13(rt: &impl Print) -> io::Result<()> {
    println!(rt; "card 10")?;
    card(
        rt,
        b"yield 5",
        OPERAND_WORDS,
        &[Run(9), Run(9), Clear, Run(9)],
    )?;
    println!(rt; "card 11")?;
    run(rt, b"1 1 copy")?;
    run(rt, b"7 8 1 drop")?;
    println!(rt; "card 12")?;
    card(rt, b"1 2", 1, &[Run(9)])?;
    card(rt, b"1 2", 2, &[Run(9)])?;
    println!(rt; "card 13")?;
    run(rt, b"1\xC2\xA02")?;
    run(rt, b"\xC2")
}

pub(crate) fn cards(rt: &impl Print) -> io::Result<()> {
    cards_1_to_5(rt)?;
    cards_6_to_9(rt)?;
    cards_10_to_13(rt)
}
