// The table of the words, and where a name is looked for in it.
ghost use Rattle.std.specs.Prelude.{◌≡◌, ◌≢◌, ◌≤◌};
ghost use Rattle.std.specs.Bool.{MatchBool};
ghost use Rattle.words.specs.Places.{own_name, low, begins, place, placed};

use crate::same::same;
use crate::word::Word;

// A row of the table: a name with zeros behind it, and its length, since eight bytes of a name are compared at once and a slice may be shorter; the bits that it has of its first eight bytes, none where it is
// longer.
#[derive(Clone, Copy)]
pub(crate) struct Row {
    name: [u8; 16],
    length: usize,
    mask: u64,
}

// The byte of a name at a place, or 0 behind its end.
macro_rules! byte {
    ($name:literal, $place:literal) => {
        if $place < $name.len() { $name[$place] } else { 0 }
    };
}

macro_rules! row {
    ($name:literal) => {
        Row {
            name: [
                byte!($name, 0),
                byte!($name, 1),
                byte!($name, 2),
                byte!($name, 3),
                byte!($name, 4),
                byte!($name, 5),
                byte!($name, 6),
                byte!($name, 7),
                byte!($name, 8),
                byte!($name, 9),
                byte!($name, 10),
                byte!($name, 11),
                byte!($name, 12),
                byte!($name, 13),
                byte!($name, 14),
                byte!($name, 15),
            ],
            length: $name.len(),
            mask: if $name.len() <= 8 { u64::MAX >> (64 - 8 * $name.len()) } else { 0 },
        }
    };
}

// In the order of the enum.
pub(crate) static WORDS: [Row; 30] = [
    row!(b"*"),
    row!(b"+"),
    row!(b"-"),
    row!(b"<"),
    row!(b"<="),
    row!(b"="),
    row!(b">"),
    row!(b">="),
    row!(b"and"),
    row!(b"or"),
    row!(b"xor"),
    row!(b"rotate_left"),
    row!(b"rotate_right"),
    row!(b"shift_left"),
    row!(b"shift_right"),
    row!(b"count_ones"),
    row!(b"leading_zeros"),
    row!(b"trailing_zeros"),
    row!(b"copy"),
    row!(b"drop"),
    row!(b"/"),
    row!(b"read"),
    row!(b"write"),
    row!(b"jump"),
    row!(b"jump_if"),
    row!(b"call"),
    row!(b"call_either"),
    row!(b"return"),
    row!(b"assert"),
    row!(b"yield"),
];

const PLACE_COUNT: usize = 128;

// No name leads there: any word may stand, since its row decides. Of Option<Word>, which has two bytes, a look-up took 33
// instructions for 28.
const NONE: Word = Word::Mul;

macro_rules! lines {
    ($([$($word:expr),*])*) => {
        [$($($word),*),*]
    };
}

// The words by place, four to a line.
static PLACES: [Word; PLACE_COUNT] = lines! {
    [NONE, NONE, NONE, NONE]
    [NONE, NONE, NONE, Word::And]
    [NONE, NONE, Word::Assert, NONE]
    [NONE, NONE, NONE, NONE]
    [Word::Copy, Word::Call, NONE, NONE]
    [Word::Drop, NONE, Word::CountOnes, Word::CallEither]
    [NONE, NONE, NONE, NONE]
    [NONE, NONE, NONE, NONE]
    [NONE, NONE, NONE, NONE]
    [NONE, NONE, NONE, NONE]
    [NONE, Word::Mul, NONE, NONE]
    [Word::Jump, Word::Add, NONE, Word::JumpIf]
    [NONE, NONE, NONE, NONE]
    [NONE, Word::Sub, NONE, NONE]
    [NONE, NONE, NONE, NONE]
    [Word::LeadingZeros, Word::Div, Word::Or, NONE]
    [NONE, NONE, NONE, NONE]
    [NONE, NONE, NONE, NONE]
    [NONE, NONE, NONE, NONE]
    [Word::Read, NONE, Word::Return, NONE]
    [NONE, NONE, NONE, Word::RotateLeft]
    [Word::RotateRight, NONE, Word::ShiftLeft, Word::ShiftRight]
    [NONE, NONE, NONE, NONE]
    [NONE, NONE, Word::TrailingZeros, NONE]
    [NONE, Word::Write, NONE, Word::Xor]
    [NONE, NONE, NONE, NONE]
    [NONE, Word::Yield, NONE, NONE]
    [NONE, NONE, NONE, NONE]
    [NONE, Word::Lt, Word::Le, NONE]
    [NONE, Word::Eq, NONE, NONE]
    [NONE, Word::Gt, Word::Ge, NONE]
    [NONE, NONE, NONE, NONE]
};

// Where a name's word is likely to stand; else it stands at the place beside it, whose number differs in the lowest bit.
#[inline(always)]
pub(crate) fn place_of(first: u8, length: usize) -> usize
    ensures { result ≡ place first length }
{
    (first as usize * 4).wrapping_add(length) % PLACE_COUNT
}

#[inline(always)]
pub(crate) fn placed(place: usize) -> Word
    ensures { result ≡ placed place }
{
    PLACES[place % PLACE_COUNT]
}

impl Row {
    #[inline(always)]
    pub(crate) fn is_named(&self, name: &[u8]) -> bool
        requires { (1 ≤ self.now.length) × (self.now.length ≤ 15) }
        ensures { MatchBool result (own_name self.now ≡ name.now) (own_name self.now ≢ name.now) }
    {
        let n = name.len();
        self.length == n && same(&self.name[..n], name)
    }

    // The first eight bytes of the name as a number.
    #[inline(always)]
    fn low(&self) -> u64
        ensures { result ≡ low self.now }
    {
        let Some(low) = self.name.first_chunk::<8>() else {
            return 0;
        };
        u64::from_le_bytes(*low)
    }

    #[inline(always)]
    pub(crate) fn begins(&self, eight: u64, n: usize) -> bool
        ensures { result ≡ begins self.now eight n }
    {
        self.length == n && eight & self.mask == self.low()
    }
}
