// White space, as `char::is_whitespace` has it, of any number.
ghost use Rattle.std.specs.Prelude.{◌≡◌};
ghost use Rattle.base.specs.Ranges.{within as within'};
ghost use Rattle.utf8.specs.WhiteSpace.{white};

pub(crate) fn within(low: u32, high: u32, n: u32) -> bool
    ensures { result ≡ within' low high n }
{
    (low <= n) & (n <= high)
}

/// Whether the number is a character's, and that is white space.
#[tactic(auto, unfolding(utf8::specs::WhiteSpace::white))]
pub fn is_white_space(value: u32) -> bool
    ensures { result ≡ white value }
{
    within(0x0009, 0x000D, value)
        | (value == 0x0020)
        | (value == 0x0085)
        | (value == 0x00A0)
        | (value == 0x1680)
        | within(0x2000, 0x200A, value)
        | within(0x2028, 0x2029, value)
        | (value == 0x202F)
        | (value == 0x205F)
        | (value == 0x3000)
}
