// UTF-8: the character at the front of any bytes, by the Unicode standard's table 3-7.
ghost use Rattle.std.specs.Prelude.{◌≡◌};
ghost use Rattle.utf8.specs.Utf8.{scalar, front};
ghost use Rattle.reader.specs.Chars.{char_of, ascii};
ghost use Rattle.reader.specs.Private.{low_after, high_after, Starts};

use crate::white_space::{is_white_space, within};

/// What stands at the front of some bytes: a character with its width in bytes, from 1 to 4, or none.
#[derive(Clone, Copy, PartialEq, Eq, Debug)]
pub enum Char {
    /// The bytes are ill-formed there, or there are none.
    Missing,
    /// White space.
    White(usize),
    Other(usize),
}

#[tactic(auto, unfolding(crate::specs::Chars::char_of))]
fn char_of(value: u32, width: usize) -> Char
    ensures { result ≡ char_of (scalar value width) }
{
    if is_white_space(value) {
        return Char::White(width);
    }
    Char::Other(width)
}

// The least byte that may follow the first byte a of a sequence of three or four.
fn second_low(a: u32) -> u32
    ensures { result ≡ low_after a }
{
    match a {
        0xE0 => 0xA0,
        0xF0 => 0x90,
        _ => 0x80,
    }
}

// The greatest one.
fn second_high(a: u32) -> u32
    ensures { result ≡ high_after a }
{
    match a {
        0xED => 0x9F,
        0xF4 => 0x8F,
        _ => 0xBF,
    }
}

fn two(a: u32, bytes: &[u8]) -> Char
    requires { Starts 0xC2 0xDF a bytes.now }
    ensures { result ≡ char_of (front bytes.now) }
{
    if bytes.len() < 2 {
        return Char::Missing;
    }
    let b = bytes[1] as u32;
    if within(0x80, 0xBF, b) {
        return char_of((a - 0xC0) * 64 + b % 64, 2);
    }
    Char::Missing
}

fn three(a: u32, bytes: &[u8]) -> Char
    requires { Starts 0xE0 0xEF a bytes.now }
    ensures { result ≡ char_of (front bytes.now) }
{
    if bytes.len() < 3 {
        return Char::Missing;
    }
    let b = bytes[1] as u32;
    let c = bytes[2] as u32;
    if within(second_low(a), second_high(a), b) & within(0x80, 0xBF, c) {
        return char_of(((a - 0xE0) * 64 + b % 64) * 64 + c % 64, 3);
    }
    Char::Missing
}

fn four(a: u32, bytes: &[u8]) -> Char
    requires { Starts 0xF0 0xF4 a bytes.now }
    ensures { result ≡ char_of (front bytes.now) }
{
    if bytes.len() < 4 {
        return Char::Missing;
    }
    let b = bytes[1] as u32;
    let c = bytes[2] as u32;
    let d = bytes[3] as u32;
    if within(second_low(a), second_high(a), b) & within(0x80, 0xBF, c) & within(0x80, 0xBF, d) {
        return char_of((((a - 0xF0) * 64 + b % 64) * 64 + c % 64) * 64 + d % 64, 4);
    }
    Char::Missing
}

/// The character at the front of the bytes, whatever stands after it.
#[tactic(auto, using(crate::proofs::Fronts::none_first, crate::proofs::Fronts::one_first, crate::proofs::Fronts::lone_first, crate::proofs::Fronts::over_first))]
pub fn first_char(bytes: &[u8]) -> Char
    ensures { result ≡ char_of (front bytes.now) }
{
    if bytes.is_empty() {
        return Char::Missing;
    }
    let a = bytes[0] as u32;
    match a {
        0..=0x7F => char_of(a, 1),
        0xC2..=0xDF => two(a, bytes),
        0xE0..=0xEF => three(a, bytes),
        0xF0..=0xF4 => four(a, bytes),
        _ => Char::Missing,
    }
}

/// Whether every byte is below 0x80.
#[tactic(auto, using(crate::proofs::Ascii::each))]
pub fn is_ascii(bytes: &[u8]) -> bool
    ensures { result ≡ ascii bytes.now }
{
    bytes.is_ascii()
}
