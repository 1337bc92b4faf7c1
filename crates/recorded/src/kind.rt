// The cases of one kind, which have a file of their own.
ghost use Rattle.std.specs.Prelude.{◌≤◌, IfOk, length};

use crate::case::Case;
use crate::tally::Tally;
use fields::{List, Numbers};
use std::fs::File;
use std::io;
use std::io::Read;
use std::rt::Files;

/// How many bytes of a file are read, and so how many numbers at most.
pub(crate) const FILE_BYTES: usize = 131072;

// Where it cannot be told where a case ends, it has all that is left, and does not agree.
fn of_list(numbers: &[u32]) -> Tally
    ensures { result.cases ≤ length numbers.now }
{
    let mut list = List { rest: numbers };
    let mut tally = Tally::new();
    while !list.rest.is_empty() {
        let Some(case) = Case::read(&mut list) else {
            return tally.with(false);
        };
        tally = tally.with(case.agrees());
    }
    tally
}

// No heap: buffers of a fixed size.
pub(crate) fn played(rt: &impl Files, name: &str) -> io::Result<Tally>
    ensures { IfOk result (λ tally. tally.cases ≤ FILE_BYTES) }
{
    let mut bytes = [0; FILE_BYTES];
    let mut numbers = [0; FILE_BYTES];
    let file = File::open(rt, name)?;
    let read = io::copy(&mut file.take(FILE_BYTES as u64), &mut &mut bytes[..])?;
    let length = bytes.len().min(read as usize);
    let bytes = &bytes[..length];
    for (number, place) in Numbers(bytes).zip(&mut numbers) {
        *place = number;
    }
    let count = Numbers(bytes).count();
    Ok(of_list(&numbers[..count]))
}
