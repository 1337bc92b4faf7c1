// Numbers, as `i32::from_str_radix` and then `u32::from_str_radix` read them. By these, on a `&str`, the kind of a number took 17 ns where it takes 11.
ghost use Rattle.std.specs.Prelude.{◌≡◌, ◌≤◌, ◌^◌, drop};
ghost use Rattle.kinds.specs.Numbers.{magnitude, below, i32_or_u32};
ghost use Rattle.kinds.specs.Answers.{answer_of, radix_of};
ghost use Rattle.kinds.specs.Private.{starts_with_minus, sign_width};

// Of -2147483648, the least i32.
const LEAST_MAGNITUDE: u32 = 1 << 31;

/// What a number is written in.
#[derive(Clone, Copy, PartialEq, Eq, Debug)]
pub enum Radix {
    Decimal,
    Hexadecimal,
}

impl Radix {
    ghost use Rattle.std.specs.Prelude.{◌≡◌, ◌≤◌};
    ghost use Rattle.kinds.specs.Answers.{radix_of};

    // Private, and no From, since it is promised that it can be a radix of std's.
    fn base(self) -> u32
        ensures base { result ≡ radix_of self }
        ensures bounds { (2 ≤ result) × (result ≤ 16) }
    {
        match self {
            Radix::Decimal => 10,
            Radix::Hexadecimal => 16,
        }
    }
}

// What the digits spell, if a u32 holds it.
fn magnitude(digits: &[u8], radix: u32) -> Option<u32>
    requires { (2 ≤ radix) × (radix ≤ 16) }
    ensures { result ≡ answer_of (below (2 ^ 32) (magnitude radix digits.now)) }
{
    if digits.is_empty() {
        return None;
    }
    let mut value: u32 = 0;
    for &byte in digits {
        let digit = (byte as char).to_digit(radix)?;
        value = u32::try_from(value as u64 * radix as u64 + digit as u64).ok()?;
    }
    Some(value)
}

// Whether a `-` stands first, and what stands after a sign.
fn split_sign(bytes: &[u8]) -> (bool, &[u8])
    ensures { (result.0 ≡ starts_with_minus bytes.now) × (result.1.now ≡ drop (sign_width bytes.now) bytes.now) }
{
    match bytes {
        [b'-', digits @ ..] => (true, digits),
        [b'+', digits @ ..] => (false, digits),
        _ => (false, bytes),
    }
}

/// The 32 bits of the number that the bytes spell, with a sign or without: of an i32, else of a u32; none if neither holds it.
pub fn read_number(bytes: &[u8], radix: Radix) -> Option<u32>
    ensures { result ≡ answer_of (i32_or_u32 (radix_of radix) bytes.now) }
{
    let (minus, digits) = split_sign(bytes);
    let magnitude = magnitude(digits, radix.base())?;
    if !minus {
        return Some(magnitude);
    }
    if LEAST_MAGNITUDE < magnitude {
        return None;
    }
    Some(magnitude.wrapping_neg())
}
