// What a token is, by its bytes.
ghost use Rattle.std.specs.Prelude.{◌≡◌};
ghost use Rattle.kinds.specs.Numbers.{i32_or_u32};
ghost use Rattle.kinds.specs.Kinds.{ends_in_colon, kind_of};
ghost use Rattle.kinds.specs.Answers.{answer_of, kind_answer, radix_of};
ghost use Rattle.kinds.specs.Private.{spelled};

use crate::number::{Radix, read_number};

/// What a token is.
#[derive(Clone, Copy, PartialEq, Eq, Debug)]
pub enum Kind {
    /// It ends in `:`; its name is all before.
    Label,
    /// It begins with `@`; its name is the rest.
    Reference,
    /// It spells a number that an i32 or a u32 holds: these are its 32 bits.
    Integer(u32),
    /// Any other.
    Identifier,
}

/// Whether a token ends in `:`, as a label does.
pub fn is_label(token: &[u8]) -> bool
    ensures { result ≡ ends_in_colon token.now }
{
    matches!(token, [.., b':'])
}

// What stands after `0x`, which is no decimal number, and else the token; by the radix.
fn split_radix(token: &[u8]) -> (&[u8], Radix)
    ensures { spelled token.now ≡ i32_or_u32 (radix_of result.1) result.0.now }
{
    match token {
        [b'0', b'x', digits @ ..] => (digits, Radix::Hexadecimal),
        _ => (token, Radix::Decimal),
    }
}

// The number that a token spells, if it does.
fn number(token: &[u8]) -> Option<u32>
    ensures { result ≡ answer_of (spelled token.now) }
{
    let (digits, radix) = split_radix(token);
    read_number(digits, radix)
}

/// The kind of a token, the first in the order of [`Kind`] that fits.
pub fn kind_of(token: &[u8]) -> Kind
    ensures { result ≡ kind_answer (kind_of token.now) }
{
    if is_label(token) {
        return Kind::Label;
    }
    match token.first() {
        Some(b'@') => Kind::Reference,
        // No number begins with a byte above `9`.
        Some(b':'..=0xFF) => Kind::Identifier,
        _ => match number(token) {
            Some(bits) => Kind::Integer(bits),
            None => Kind::Identifier,
        },
    }
}
