// The evaluation, for C: a fresh start, and the seven calls.
ghost use Rattle.stack_assembly.specs.Promise.{Starts, Called};
ghost use Rattle.stack_assembly.specs.Run.{step_call, run_call, clear_call, push_call, pop_call, read_call, write_call};
ghost use Rattle.eval.specs.Lends.{state_of, lent_of, answer_of, SameLent};

use eval::{Answer, Eval, State};

// A call on an evaluation of its own, to which the buffers are lent again: its parts then stay in registers, and only the state is written back.
macro_rules! called {
    ($eval:ident.$call:ident($($operand:expr),*)) => {{
        let mut own = Eval {
            state: $eval.state,
            tables: $eval.tables,
            operand_stack: &mut *$eval.operand_stack,
            call_stack: &mut *$eval.call_stack,
            memory: &mut *$eval.memory,
        };
        let answer: Answer = own.$call($($operand),*).into();
        $eval.state = own.state;
        answer
    }};
}

/// A fresh state, whose memory becomes zeros.
#[unsafe(no_mangle)]
pub extern "C" fn stack_assembly_new(memory: &mut [u32]) -> State
    ensures { Starts memory.old (record { state = state_of result; memory = memory.new }) }
{
    State::new(memory)
}

/// One step.
#[unsafe(no_mangle)]
pub extern "C" fn stack_assembly_step(eval: &mut Eval<'_>) -> Answer
    ensures called { Called step_call (lent_of eval.old) (answer_of result) (lent_of eval.new) }
    ensures same { SameLent eval.old eval.new }
{
    called!(eval.step())
}

/// Steps up to a budget.
#[unsafe(no_mangle)]
pub extern "C" fn stack_assembly_run(eval: &mut Eval<'_>, budget: u32) -> Answer
    ensures called { Called (run_call budget) (lent_of eval.old) (answer_of result) (lent_of eval.new) }
    ensures same { SameLent eval.old eval.new }
{
    called!(eval.run(budget))
}

/// Takes away the effect that stands, and answers its number and operator.
#[unsafe(no_mangle)]
pub extern "C" fn stack_assembly_clear(eval: &mut Eval<'_>) -> Answer
    ensures called { Called clear_call (lent_of eval.old) (answer_of result) (lent_of eval.new) }
    ensures same { SameLent eval.old eval.new }
{
    called!(eval.clear_effect())
}

/// Pushes an operand.
#[unsafe(no_mangle)]
pub extern "C" fn stack_assembly_push(eval: &mut Eval<'_>, word: u32) -> Answer
    ensures called { Called (push_call word) (lent_of eval.old) (answer_of result) (lent_of eval.new) }
    ensures same { SameLent eval.old eval.new }
{
    called!(eval.push(word))
}

/// Pops an operand, which is the value, and leaves zero in its place.
#[unsafe(no_mangle)]
pub extern "C" fn stack_assembly_pop(eval: &mut Eval<'_>) -> Answer
    ensures called { Called pop_call (lent_of eval.old) (answer_of result) (lent_of eval.new) }
    ensures same { SameLent eval.old eval.new }
{
    called!(eval.pop())
}

/// The word of the memory at an address, which is the value.
#[unsafe(no_mangle)]
pub extern "C" fn stack_assembly_read(eval: &mut Eval<'_>, address: u32) -> Answer
    ensures called { Called (read_call address) (lent_of eval.old) (answer_of result) (lent_of eval.new) }
    ensures same { SameLent eval.old eval.new }
{
    called!(eval.read(address))
}

/// Sets the word of the memory at an address.
#[unsafe(no_mangle)]
pub extern "C" fn stack_assembly_write(eval: &mut Eval<'_>, address: u32, word: u32) -> Answer
    ensures called { Called (write_call address word) (lent_of eval.old) (answer_of result) (lent_of eval.new) }
    ensures same { SameLent eval.old eval.new }
{
    called!(eval.write(address, word))
}
