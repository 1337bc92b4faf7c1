// How many cases there are, and how many agree.
ghost use Rattle.std.specs.Prelude.{◌≡◌, ◌+◌, ◌<◌, ◌≤◌, ◌^◌, None};
ghost use Rattle.recorded.specs.Agreement.{first_with, one_if};

use std::fmt;

/// The first that does not agree is told by its number, from 1 on.
#[derive(Clone, Copy)]
pub(crate) struct Tally {
    pub cases: usize,
    pub agreeing: usize,
    pub first: Option<usize>,
    ghost ordered: { agreeing ≤ cases },
}

impl Tally {
    pub(crate) fn new() -> Tally
        ensures cases { result.cases ≡ 0 }
        ensures agreeing { result.agreeing ≡ 0 }
        ensures first { result.first ≡ None }
    {
        Tally {
            cases: 0,
            agreeing: 0,
            first: None,
        }
    }

    /// With one case more.
    pub(crate) fn with(self, agrees: bool) -> Tally
        requires { self.cases + 1 < 2 ^ 64 }
        ensures cases { result.cases ≡ self.cases + 1 }
        ensures agreeing { result.agreeing ≡ self.agreeing + one_if agrees }
        ensures first { result.first ≡ first_with self.first (self.cases + 1) agrees }
    {
        let cases = self.cases + 1;
        Tally {
            cases,
            agreeing: self.agreeing + usize::from(agrees),
            first: self.first.or((!agrees).then_some(cases)),
        }
    }

    /// Of both; which of them is the first, is not told.
    pub(crate) fn plus(self, other: Tally) -> Tally
        requires { self.cases + other.cases < 2 ^ 64 }
        ensures cases { result.cases ≡ self.cases + other.cases }
        ensures agreeing { result.agreeing ≡ self.agreeing + other.agreeing }
        ensures first { result.first ≡ None }
    {
        Tally {
            cases: self.cases + other.cases,
            agreeing: self.agreeing + other.agreeing,
            first: None,
        }
    }
}

impl fmt::Display for Tally {
    fn fmt<W: fmt::Write>(&self, f: &mut fmt::Formatter<W>) -> fmt::Result {
        let Tally {
            cases,
            agreeing,
            ..
        } = *self;
        write!(f, "{agreeing} of {cases} agree")?;
        if let Some(first) = self.first {
            write!(f, "\nthe first that does not: {first}")?;
        }
        Ok(())
    }
}
