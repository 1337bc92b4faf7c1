// Beside the run, for C: where an operator stands in the text, and the call stack by place.
ghost use Rattle.std.specs.Prelude.{◌≡◌};
ghost use Rattle.stack_assembly.specs.Beside.{call_stack_at};
ghost use Rattle.records.specs.Lent.{tables_of};
ghost use Rattle.records.specs.Source.{source_at};
ghost use Rattle.eval.specs.Lends.{answer_of};
ghost use Rattle.stack_assembly_c.specs.Boundary.{located_of};

use eval::{Answer, Eval};
use records::Tables;

/// Where an operator stands in the text, and the answer about it; 0 to 0 where it is refused.
#[derive(Clone, Copy)]
#[repr(C)]
pub struct Located {
    pub answer: Answer,
    pub start: usize,
    pub end: usize,
}

/// Where an operator's source stands.
#[unsafe(no_mangle)]
pub extern "C" fn stack_assembly_source(tables: &Tables<'_>, index: u32) -> Located
    ensures { located_of result ≡ source_at (tables_of tables.now) index }
{
    let (number, value, start, end) = match tables.source(index) {
        Ok(range) => (0, 0, range.start, range.end),
        Err(refusal) => (refusal.number(), refusal.value(), 0, 0),
    };
    Located {
        answer: Answer {
            number,
            steps: 0,
            value,
        },
        start,
        end,
    }
}

/// The entry of the call stack at a place, 0 being the top: the value is the entry less 1.
#[unsafe(no_mangle)]
pub extern "C" fn stack_assembly_call_stack(eval: &Eval<'_>, place: usize) -> Answer
    ensures { answer_of result ≡ call_stack_at eval.now.state.call_depth eval.now.call_stack.now place }
{
    eval::call_stack(eval.state.call_depth, eval.call_stack, place).into()
}
