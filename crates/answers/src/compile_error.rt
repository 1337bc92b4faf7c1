// The errors of `compile`.
use std::fmt;
use utf8::IllFormed;

/// How many bytes a text may have.
pub const LONGEST_TEXT: usize = 65535;

/// Why a text is refused. Each error answers with a number and a value of its own.
#[derive(Clone, Copy, PartialEq, Eq, Debug)]
pub enum CompileError {
    /// 22, 65535: the text has more than that many bytes, [`LONGEST_TEXT`].
    TooLong,
    /// 21 and the offset: the text is not UTF-8, and its first ill-formed sequence starts there.
    IllFormed { offset: usize },
    /// 23 and their number: the text has so many operators, more than their table holds.
    TooManyOperators(usize),
    /// 24 and their number: the text has so many labels, more than their table holds.
    TooManyLabels(usize),
}

impl From<IllFormed> for CompileError {
    ghost use Rattle.std.specs.Prelude.{◌≡◌};
    ghost use Rattle.answers.specs.declared.compile_error.CompileError.TheVariants.{IllFormed};

    ghost from_gives = { λ e c. c ≡ IllFormed e.offset };

    fn from(error: IllFormed) -> CompileError {
        CompileError::IllFormed {
            offset: error.offset,
        }
    }
}

impl CompileError {
    ghost use Rattle.std.specs.Prelude.{◌≡◌};
    ghost use Rattle.answers.specs.Refusals.{error_number, error_value};

    // An error has two numbers, so methods: one From could not say which.
    /// The number that answers it.
    pub fn number(self) -> u32
        ensures { result ≡ error_number self }
    {
        match self {
            CompileError::TooLong => 22,
            CompileError::IllFormed { offset: _ } => 21,
            CompileError::TooManyOperators(_) => 23,
            CompileError::TooManyLabels(_) => 24,
        }
    }

    /// The value that goes with the number.
    pub fn value(self) -> usize
        ensures { result ≡ error_value self }
    {
        match self {
            CompileError::TooLong => LONGEST_TEXT,
            CompileError::IllFormed { offset } => offset,
            CompileError::TooManyOperators(n) => n,
            CompileError::TooManyLabels(n) => n,
        }
    }
}

impl fmt::Display for CompileError {
    ghost use Rattle.std.specs.Prelude.{Some};
    ghost use Rattle.answers.specs.Refusals.{message};

    ghost output = { λ e. Some (message e) };

    fn fmt<W: fmt::Write>(&self, f: &mut fmt::Formatter<W>) -> fmt::Result {
        match *self {
            CompileError::TooLong => write!(f, "the text has more than {LONGEST_TEXT} bytes"),
            CompileError::IllFormed { offset } => write!(
                f,
                "the text is not UTF-8 at offset {}",
                offset
            ),
            CompileError::TooManyOperators(n) => write!(
                f,
                "the text has {} operators, more than their table holds",
                n
            ),
            CompileError::TooManyLabels(n) => write!(
                f,
                "the text has {} labels, more than their table holds",
                n
            ),
        }
    }
}
