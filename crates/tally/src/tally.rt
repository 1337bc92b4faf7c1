// A script compiled, and where it is accepted run once, from a fresh start.
use eval::{Answer, Eval};
use start::Buffers;
use std::fmt;

/// How many steps the run may make.
const BUDGET: u32 = 1_000_000;

/// What is printed: an answer, and the operands that the run left, from the bottom up.
#[derive(Drop)]
pub(crate) struct Tally<'a> {
    pub answer: Answer,
    pub operands: &'a [u32],
}

impl<'a> Tally<'a> {
    ghost use Rattle.tally.specs.Tally.{Tallies};
    ghost use Rattle.start.specs.Begun.{buffers_of};

    /// Runs the script once. A refused compile stands alone: no step is made, and there are no operands.
    pub(crate) fn of_text(text: &'a [u8], buffers: Buffers<'a>) -> Tally<'a>
        ensures { Tallies text.now (buffers_of buffers.entry) result }
    {
        match buffers.begin(text) {
            Err(error) => Tally {
                answer: Answer {
                    number: error.number(),
                    value: error.value(),
                    steps: 0,
                },
                operands: &[],
            },
            Ok(mut eval) => {
                let ran = eval.run(BUDGET);
                let Eval {
                    state,
                    operand_stack,
                    ..
                } = eval;
                Tally {
                    answer: ran.into(),
                    operands: &operand_stack[..state.operand_depth],
                }
            }
        }
    }
}

impl fmt::Display for Tally<'_> {
    ghost use Rattle.std.specs.Prelude.{Some};
    ghost use Rattle.tally.specs.Tally.{text_of};
    ghost use Rattle.eval.specs.Lends.{answer_of};

    ghost output = { λ t. Some (text_of (answer_of t.answer) t.operands.now) };

    fn fmt<W: fmt::Write>(&self, f: &mut fmt::Formatter<W>) -> fmt::Result {
        writeln!(f, "{}", self.answer)?;
        for word in self.operands {
            writeln!(f, "{}", word.cast_signed())?;
        }
        Ok(())
    }
}
