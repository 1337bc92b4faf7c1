// What the calls answer, as three numbers.
ghost use Rattle.std.specs.Prelude.{◌≡◌};
ghost use Rattle.machine.specs.Steps.{ended_answer};
ghost use Rattle.eval.specs.Lends.{answer_of};
ghost use Rattle.stack_assembly.specs.Answer.{refused};

use answers::{Effect, Refusal};
use machine::{Ended, Ran};
use std::fmt;

// Three numbers, since the C interface and the programs have them so; the calls themselves answer results.
/// The number of an effect, from 1 to 11, or of a refusal, from 21 to 31, or 0; the value that goes with it; and the steps that count.
#[derive(Clone, Copy, PartialEq, Eq, Debug)]
#[repr(C)]
pub struct Answer {
    pub number: u32,
    pub steps: u32,
    pub value: usize,
}

impl fmt::Display for Answer {
    ghost use Rattle.std.specs.Prelude.{Some};
    ghost use Rattle.eval.specs.Text.{answer_text};

    ghost output = { λ a. Some (answer_text (answer_of a)) };

    fn fmt<W: fmt::Write>(&self, f: &mut fmt::Formatter<W>) -> fmt::Result {
        let Answer {
            number,
            value,
            steps,
        } = *self;
        write!(f, "{number} {value} {steps}")
    }
}

impl Answer {
    // Neither an effect nor a refusal, which is number 0: the value, after so many steps.
    #[inline(always)]
    fn done(value: usize, steps: u32) -> Answer
        ensures { result ≡ record { number = 0; value = value; steps = steps } }
    {
        Answer {
            number: 0,
            value,
            steps,
        }
    }

    // A refusal, after so many steps.
    #[inline(always)]
    fn refused(refusal: Refusal, steps: u32) -> Answer
        ensures { answer_of result ≡ refused refusal steps }
    {
        Answer {
            number: refusal.number(),
            value: refusal.value(),
            steps,
        }
    }

    // What ended a step or a run, after so many steps.
    #[inline(always)]
    fn ended(ended: Ended, steps: u32) -> Answer
        ensures { answer_of result ≡ ended_answer ended steps }
    {
        match ended {
            Ended::Raised(effect, operator) => Answer {
                number: effect.number(),
                value: operator as usize,
                steps,
            },
            Ended::Refused(refusal) => Answer::refused(refusal, steps),
        }
    }
}

/// Push and write.
impl From<Result<(), Refusal>> for Answer {
    ghost use Rattle.std.specs.Prelude.{◌≡◌};
    ghost use Rattle.eval.specs.Lends.{answer_of};
    ghost use Rattle.eval.specs.Answers.{done_answer};

    ghost from_gives = { λ r a. answer_of a ≡ done_answer r };

    #[inline(always)]
    fn from(done: Result<(), Refusal>) -> Answer {
        match done {
            Ok(()) => Answer::done(0, 0),
            Err(refusal) => Answer::refused(refusal, 0),
        }
    }
}

/// Pop, read, and an entry of the call stack.
impl From<Result<u32, Refusal>> for Answer {
    ghost use Rattle.std.specs.Prelude.{◌≡◌};
    ghost use Rattle.eval.specs.Lends.{answer_of};
    ghost use Rattle.eval.specs.Answers.{word_answer};

    ghost from_gives = { λ r a. answer_of a ≡ word_answer r };

    #[inline(always)]
    fn from(word: Result<u32, Refusal>) -> Answer {
        match word {
            Ok(word) => Answer::done(word as usize, 0),
            Err(refusal) => Answer::refused(refusal, 0),
        }
    }
}

/// Clear.
impl From<Result<Option<(Effect, u32)>, Refusal>> for Answer {
    ghost use Rattle.std.specs.Prelude.{◌≡◌};
    ghost use Rattle.eval.specs.Lends.{answer_of};
    ghost use Rattle.eval.specs.Answers.{cleared_answer};

    ghost from_gives = { λ r a. answer_of a ≡ cleared_answer r };

    #[inline(always)]
    fn from(cleared: Result<Option<(Effect, u32)>, Refusal>) -> Answer {
        match cleared {
            Ok(None) => Answer::done(0, 0),
            Ok(Some((effect, operator))) => Answer::ended(Ended::Raised(effect, operator), 0),
            Err(refusal) => Answer::refused(refusal, 0),
        }
    }
}

/// A step.
impl From<Result<(), Ended>> for Answer {
    ghost use Rattle.std.specs.Prelude.{◌≡◌};
    ghost use Rattle.machine.specs.Steps.{step_answer};
    ghost use Rattle.eval.specs.Lends.{answer_of};

    ghost from_gives = { λ r a. answer_of a ≡ step_answer r };

    #[inline(always)]
    fn from(stepped: Result<(), Ended>) -> Answer {
        match stepped {
            Ok(()) => Answer::done(0, 1),
            Err(ended) => Answer::ended(ended, ended.steps()),
        }
    }
}

/// A run.
impl From<Ran> for Answer {
    ghost use Rattle.std.specs.Prelude.{◌≡◌};
    ghost use Rattle.eval.specs.Lends.{answer_of};
    ghost use Rattle.eval.specs.Answers.{ran_answer};

    ghost from_gives = { λ r a. answer_of a ≡ ran_answer r };

    #[inline(always)]
    fn from(ran: Ran) -> Answer {
        Answer::ended(ran.ended, ran.steps)
    }
}
