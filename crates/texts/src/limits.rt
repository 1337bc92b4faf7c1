// Tables that are just large enough or too small, and texts about as long as may be.
use crate::show;
use compile::LONGEST_TEXT;
use std::io;

// No heap: tables of fixed sizes, here and below.
/// Tables with a word too few for their records, or with none to spare.
pub(crate) fn tables(rt: &impl Print) -> io::Result<()> {
    show::tables(rt, b"a: 1 b: 2 c: 3", &mut [9; 11], &mut [9; 8])?;
    show::tables(rt, b"a: 1 b: 2 c: 3", &mut [9; 11], &mut [9; 9])?;
    show::tables(rt, b"a: 1 b: 2 c: 3", &mut [9; 12], &mut [9; 8])?;
    show::tables(rt, b"a: 1 b: 2 c: 3 \xFF", &mut [9; 11], &mut [9; 8])?;
    show::tables(rt, b"a: 1 b: 2 c: 3", &mut [9; 12], &mut [9; 9])?;
    // A second text in the same tables: what it does not write stays.
    let mut operators = [9; 13];
    let mut labels = [9; 10];
    show::tables(rt, b"a: 1 b: 2 c: @a", &mut operators, &mut labels)?;
    show::tables(rt, b"a: b", &mut operators, &mut labels)
}

/// No word for a table at all.
pub(crate) fn no_tables(rt: &impl Print) -> io::Result<()> {
    show::tables(rt, b"", &mut [9; 0], &mut [9; 0])?;
    show::tables(rt, b"# 1", &mut [9; 0], &mut [9; 0])?;
    show::tables(rt, b"1", &mut [9; 0], &mut [9; 0])?;
    show::tables(rt, b"a:", &mut [9; 0], &mut [9; 0])?;
    show::tables(rt, b"1 a:", &mut [9; 0], &mut [9; 0])?;
    show::tables(rt, b"1 a: \xFF", &mut [9; 0], &mut [9; 0])
}

/// The longest text, a comment up to its last byte but one, and a byte more than it may have; the texts themselves are not printed.
pub(crate) fn long_texts(rt: &impl Print) -> io::Result<()> {
    let mut operators = [9; 4];
    let mut labels = [9; 3];
    let mut longest = [b'#'; LONGEST_TEXT];
    longest[LONGEST_TEXT - 2] = b'\n';
    longest[LONGEST_TEXT - 1] = b'1';
    show::compiled(rt, &longest, &mut operators, &mut labels)?;
    show::compiled(rt, &[0xFF; LONGEST_TEXT], &mut operators, &mut labels)?;
    show::compiled(rt, &[b' '; LONGEST_TEXT + 1], &mut operators, &mut labels)?;
    show::compiled(rt, &[0xFF; LONGEST_TEXT + 1], &mut operators, &mut labels)
}
