// What is lent to a host's calls, and the calls that make no step.
#![tactic(auto, using(crate::proofs::Calls::refused), unfolding(stack_assembly::specs::Host::forged))]

use crate::state::State;
use answers::{Effect, Refusal, number_of, standing};
use machine::Machine;
use records::{Script, Tables};
use std::mem;
use store::{CallStack, Memory, OperandStack, Stack};

/// An evaluation: its state, the script's tables, and three buffers of words. Whatever a host puts into it, each call answers.
#[derive(Drop)]
#[repr(C)]
pub struct Eval<'a> {
    pub state: State,
    pub tables: Tables<'a>,
    pub operand_stack: &'a mut [u32],
    pub call_stack: &'a mut [u32],
    pub memory: &'a mut [u32],
}

impl<'a> Eval<'a> {
    ghost use Rattle.std.specs.Prelude.{◌≡◌, take};
    ghost use Rattle.stack_assembly.specs.Run.{push_call, pop_call, read_call, write_call, clear_call};
    ghost use Rattle.stack_assembly.specs.Promise.{Called};
    ghost use Rattle.eval.specs.Lends.{lent_of, Takes, PutBack, SameLent};
    ghost use Rattle.eval.specs.Answers.{done_answer, word_answer, cleared_answer};

    // Takes out the machine that a call works on, and the script that it reads; the buffers here are empty until it is put back. What is forged is refused
    // before, over all that is lent.
    //
    // The script stands first: with the machine there, whose first part is the next operator, a refusal's tag lay over a byte of that, LLVM kept it in two
    // pieces, and straight lines took up to 24 % more instructions.
    #[inline(always)]
    pub(crate) fn take(&mut self) -> Result<(Script<'a>, Machine<'a>), Refusal>
        ensures { Takes self.old result self.new }
    {
        let script = self.tables.script()?;
        let effect = standing(self.state.effect)?;
        if self.operand_stack.len() < self.state.operand_depth
            || self.call_stack.len() < self.state.call_depth
        {
            return Err(Refusal::Forged);
        }
        let machine = Machine {
            next: self.state.next_operator,
            effect,
            effect_operator: self.state.effect_operator,
            operands: OperandStack {
                stack: Stack {
                    words: mem::take(&mut self.operand_stack),
                    depth: self.state.operand_depth,
                },
            },
            calls: CallStack {
                stack: Stack {
                    words: mem::take(&mut self.call_stack),
                    depth: self.state.call_depth,
                },
            },
            memory: Memory {
                words: mem::take(&mut self.memory),
            },
        };
        Ok((script, machine))
    }

    #[inline(always)]
    pub(crate) fn put_back(&mut self, machine: Machine<'a>)
        ensures { PutBack self.old machine.entry self.new }
    {
        let Machine {
            next,
            effect,
            effect_operator,
            operands: OperandStack { stack: operands },
            calls: CallStack { stack: calls },
            memory: Memory { words: memory },
        } = machine;
        self.state = State {
            next_operator: next,
            operand_depth: operands.depth,
            call_depth: calls.depth,
            effect: number_of(effect),
            effect_operator,
        };
        self.operand_stack = operands.words;
        self.call_stack = calls.words;
        self.memory = memory;
    }

    // `calls` is the same of the other stack: a function of both would take depth and buffer apart, and these are its two lines.
    /// The operands, from the bottom up; no more than their buffer has.
    pub fn operands(&self) -> &[u32]
        ensures { result.now ≡ take self.now.state.operand_depth self.now.operand_stack.now }
    {
        let depth = self.state.operand_depth.min(self.operand_stack.len());
        &self.operand_stack[..depth]
    }

    /// The words of the call stack, from the bottom up; no more than their buffer has.
    pub fn calls(&self) -> &[u32]
        ensures { result.now ≡ take self.now.state.call_depth self.now.call_stack.now }
    {
        let depth = self.state.call_depth.min(self.call_stack.len());
        &self.call_stack[..depth]
    }

    /// Pushes a word on the operand stack; refused as `OperandStackFull` where that is full.
    pub fn push(&mut self, word: u32) -> Result<(), Refusal>
        ensures called { Called (push_call word) (lent_of self.old) (done_answer result) (lent_of self.new) }
        ensures same { SameLent self.old self.new }
    {
        let (_, mut machine) = self.take()?;
        let pushed = machine.operands.push(word);
        self.put_back(machine);
        pushed
    }

    // Like `read` and `write`: put back first, and only then say the error in the words of a host.
    /// Pops the top of the operand stack; refused as `OperandStackEmpty` where there is none.
    pub fn pop(&mut self) -> Result<u32, Refusal>
        ensures called { Called pop_call (lent_of self.old) (word_answer result) (lent_of self.new) }
        ensures same { SameLent self.old self.new }
    {
        let (_, mut machine) = self.take()?;
        let popped = machine.operands.pop();
        self.put_back(machine);
        match popped {
            Ok(word) => Ok(word),
            Err(_) => Err(Refusal::OperandStackEmpty),
        }
    }

    /// The word of the memory at an address; refused as `Absent` where there is none.
    pub fn read(&mut self, address: u32) -> Result<u32, Refusal>
        ensures called { Called (read_call address) (lent_of self.old) (word_answer result) (lent_of self.new) }
        ensures same { SameLent self.old self.new }
    {
        let (_, machine) = self.take()?;
        let read = machine.memory.read(address);
        self.put_back(machine);
        match read {
            Ok(word) => Ok(word),
            Err(_) => Err(Refusal::Absent(address as usize)),
        }
    }

    /// Writes a word of the memory; refused as `Absent` where there is no such address.
    pub fn write(&mut self, address: u32, word: u32) -> Result<(), Refusal>
        ensures called { Called (write_call address word) (lent_of self.old) (done_answer result) (lent_of self.new) }
        ensures same { SameLent self.old self.new }
    {
        let (_, mut machine) = self.take()?;
        let written = machine.memory.write(address, word);
        self.put_back(machine);
        match written {
            Ok(()) => Ok(()),
            Err(_) => Err(Refusal::Absent(address as usize)),
        }
    }

    /// Takes away the effect that stands; gives it, with the index of its operator.
    pub fn clear_effect(&mut self) -> Result<Option<(Effect, u32)>, Refusal>
        ensures called { Called clear_call (lent_of self.old) (cleared_answer result) (lent_of self.new) }
        ensures same { SameLent self.old self.new }
    {
        let (_, mut machine) = self.take()?;
        let cleared = machine.clear_effect();
        self.put_back(machine);
        Ok(cleared)
    }
}
