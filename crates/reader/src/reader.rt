// A reader of tokens: any bytes, and an offset in them.
ghost use Rattle.std.specs.Prelude.{◌≡◌};
ghost use Rattle.reader.specs.Next.{next_at, past_of};
ghost use Rattle.reader.specs.Reading.{next_by, moved_on};

use crate::scan::{Next, next_token};

/// The tokens of any bytes from an offset on.
#[derive(Drop)]
pub struct Reader<'a> {
    text: &'a [u8],
    at: usize,
}

fn past_of(next: Next, at: usize) -> usize
    ensures { result ≡ past_of next at }
{
    match next {
        Next::Token { past, .. } => past,
        Next::IllFormed(_) | Next::End => at,
    }
}

impl<'a> Reader<'a> {
    /// Before the first token from that offset on, which may lie past the end.
    pub fn new(text: &'a [u8], at: usize) -> Reader<'a>
        ensures { (result.text ≡ text.entry) × (result.at ≡ at) }
    {
        Reader { text, at }
    }

    /// The next token, past which the reader then is; without one it stays where it is.
    pub fn next(&mut self) -> Next
        ensures { (result ≡ next_by self.old) × (self.new ≡ moved_on self.old) }
    {
        let next = next_token(self.text, self.at);
        self.at = past_of(next, self.at);
        next
    }
}

/// The first token from an offset on, which may lie past the end.
pub fn read_token(text: &[u8], from: usize) -> Next
    ensures { result ≡ next_at text.now from }
{
    let mut reader = Reader::new(text, from);
    reader.next()
}
