// The first token from an offset on.
ghost use Rattle.std.specs.Str.{IsCharBoundary};
ghost use Rattle.tokens.specs.Answers.{First};

use crate::scan::{blank_end, comment_end, token_end};

/// A token's bytes in the text: from `start` up to `end`, which is excluded.
#[derive(Clone, Copy, PartialEq, Eq, Debug)]
pub struct Token {
    pub start: usize,
    pub end: usize,
}

// The first token from an offset on that is in none, and where the later ones are looked for.
pub(crate) fn first_token(text: &str, from: usize) -> Option<(Token, usize)>
    requires { IsCharBoundary text.now from }
    ensures { First text.now from result }
{
    let mut at = from;
    // A loop, since it passes any number of comments, and moves by what each scan says.
    loop {
        let start = blank_end(text, at);
        let first = *text.as_bytes().get(start)?;
        if first == b'#' {
            at = comment_end(text, start);
        } else {
            let (end, past) = token_end(text, start);
            if start < end {
                return Some((Token { start, end }, past));
            }
            at = past;
        }
    }
}
