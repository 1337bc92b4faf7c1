// The state of an evaluation.

/// The state of an evaluation, as its host keeps it between calls: five numbers, which the host may have forged.
#[derive(Clone, Copy, PartialEq, Eq, Debug)]
#[repr(C)]
pub struct State {
    /// The index of the operator that the next step evaluates.
    pub next_operator: u32,
    /// How many words there are on the operand stack.
    pub operand_depth: usize,
    /// How many words there are on the call stack.
    pub call_depth: usize,
    /// The number of the effect that stands, from 1 to 11, or 0 where none does.
    pub effect: u32,
    /// The index of the operator that raised it, or 0.
    pub effect_operator: u32,
}

impl State {
    ghost use Rattle.stack_assembly.specs.Promise.{Starts};
    ghost use Rattle.eval.specs.Lends.{state_of};

    /// The state of a fresh evaluation, whose memory it fills with zeros.
    pub fn new(memory: &mut [u32]) -> State
        ensures { Starts memory.old (record { state = state_of result; memory = memory.new }) }
    {
        memory.fill(0);
        State {
            next_operator: 0,
            operand_depth: 0,
            call_depth: 0,
            effect: 0,
            effect_operator: 0,
        }
    }
}
