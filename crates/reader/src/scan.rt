// Tokens: the next one from an offset on, character by character as the definition has it. (`Tokens` of the crate tokens takes eight bytes at a time, and asks
// for a text.)
ghost use Rattle.std.specs.Prelude.{◌≡◌};
ghost use Rattle.reader.specs.Next.{next_at};
ghost use Rattle.reader.specs.Private.{Moved, stopped};

use crate::chars::{Char, first_char};

/// What stands next in some bytes.
#[derive(Clone, Copy, PartialEq, Eq, Debug)]
pub enum Next {
    /// A token's bytes, from `start` up to `end`, which is excluded, and the offset past the white space that ends it.
    Token {
        start: usize,
        end: usize,
        past: usize,
    },
    /// No token, but an ill-formed sequence, which starts at this offset.
    IllFormed(usize),
    End,
}

// The definition's states: between tokens, in a comment, or in a token that started at an offset.
#[derive(Clone, Copy)]
pub(crate) enum State {
    Initial,
    Comment,
    Token(usize),
}

// Past a character at an offset, told by its first byte, and by whether it is white space.
fn after(state: State, at: usize, first: u8, white: bool) -> State
    ensures { Moved state at first white result }
{
    match state {
        State::Initial if first == b'#' => State::Comment,
        State::Initial if !white => State::Token(at),
        State::Comment if first != b'\n' => State::Comment,
        State::Token(start) if !white => State::Token(start),
        _ => State::Initial,
    }
}

// Where no character stands: the token that ends there, or else what is found there.
fn stopped(state: State, at: usize, found: Next) -> Next
    ensures { result ≡ stopped state at found }
{
    match state {
        State::Initial | State::Comment => found,
        State::Token(start) => Next::Token {
            start,
            end: at,
            past: at,
        },
    }
}

#[tactic(auto, using(crate::proofs::Turns::left_first, crate::proofs::Turns::left_white, crate::proofs::Turns::left_other, crate::proofs::Turns::white_fits, crate::proofs::Turns::other_fits, crate::proofs::Turns::ended_white, crate::proofs::Turns::stopped_missing, crate::proofs::Turns::stopped_end))]
pub(crate) fn next_token(text: &[u8], from: usize) -> Next
    ensures { result ≡ next_at text.now from }
{
    let mut state = State::Initial;
    let mut at = from;
    while at < text.len() {
        match first_char(&text[at..]) {
            Char::Missing => {
                return stopped(state, at, Next::IllFormed(at));
            }
            Char::White(width) => {
                if let State::Token(start) = state {
                    return Next::Token {
                        start,
                        end: at,
                        past: at + width,
                    };
                }
                state = after(state, at, text[at], true);
                at += width;
            }
            Char::Other(width) => {
                state = after(state, at, text[at], false);
                at += width;
            }
        }
    }
    stopped(state, at, Next::End)
}
