// The call stack, by place.
ghost use Rattle.std.specs.Prelude.{◌≡◌};
ghost use Rattle.stack_assembly.specs.Beside.{call_stack_at};
ghost use Rattle.eval.specs.Answers.{word_answer};

use answers::Refusal;

// Of the depth and the buffer, and not of an evaluation, since no more of one is asked.
/// The index of the operator that made the call at a place, which is the entry there less 1; place 0 is the top.
///
/// Refused as `Forged` where the depth is more than the buffer has, or the entry is 0, and as `Absent` where there is no such place.
pub fn call_stack(call_depth: usize, call_stack: &[u32], place: usize) -> Result<u32, Refusal>
    ensures { word_answer result ≡ call_stack_at call_depth call_stack.now place }
{
    if call_stack.len() < call_depth {
        return Err(Refusal::Forged);
    }
    if call_depth <= place {
        return Err(Refusal::Absent(place));
    }
    match call_stack[call_depth - 1 - place] {
        0 => Err(Refusal::Forged),
        entry => Ok(entry - 1),
    }
}
