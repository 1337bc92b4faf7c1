// A call of a case, with what the Rust answered.
use eval::{Answer, Call, Eval, State};

/// The numbers of a call: its code and two operands, its answer, and the state after it.
pub(crate) const NUMBERS: usize = 11;

// The call that a code names, as the recorded files have it. No TryFrom: a call is a code and its operands, three numbers, and any other code is a write.
fn named(code: u32, a: u32, b: u32) -> Call {
    match code {
        1 => Call::Step,
        2 => Call::Run(a),
        3 => Call::Clear,
        4 => Call::Push(a),
        5 => Call::Pop,
        6 => Call::Read(a),
        _ => Call::Write(a, b),
    }
}

/// Whether the call, made now, has the answer that was recorded, and leaves the state that was.
pub(crate) fn agrees(call: &[u32; NUMBERS], eval: &mut Eval<'_>) -> bool {
    let &[
        code,
        a,
        b,
        number,
        value,
        steps,
        next_operator,
        operand_depth,
        call_depth,
        effect,
        effect_operator,
    ] = call;
    let recorded = Answer {
        number,
        value: value as usize,
        steps,
    };
    let state = State {
        next_operator,
        operand_depth: operand_depth as usize,
        call_depth: call_depth as usize,
        effect,
        effect_operator,
    };
    named(code, a, b).make(eval) == recorded && eval.state == state
}
