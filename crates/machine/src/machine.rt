// A machine: what a script works on, in lent buffers.

use answers::Effect;
use store::{CallStack, Memory, OperandStack};

/// The next operator, the effect that stands with its operator, and what operators work on.
#[derive(Drop)]
pub struct Machine<'a> {
    pub next: u32,
    pub effect: Option<Effect>,
    // Beside the effect, not in it: a host may lend an operator without an effect, and a step gives it back.
    pub effect_operator: u32,
    pub operands: OperandStack<'a>,
    pub calls: CallStack<'a>,
    pub memory: Memory<'a>,
}

impl Machine<'_> {
    ghost use Rattle.std.specs.Prelude.{◌≡◌};
    ghost use Rattle.machine.specs.Outcomes.{cleared_of, Cleared};

    /// Takes away the effect that stands, and gives it with its operator.
    #[inline(always)]
    pub fn clear_effect(&mut self) -> Option<(Effect, u32)>
        ensures gives { result ≡ cleared_of self.old }
        ensures cleared { Cleared self.old self.new }
    {
        let cleared = match self.effect {
            None => None,
            Some(effect) => Some((effect, self.effect_operator)),
        };
        self.effect = None;
        self.effect_operator = 0;
        cleared
    }
}
