// The buffers that an evaluation is lent, and its start.
use compile::CompileError;
use eval::{Eval, State};
use records::Tables;

/// They may hold any words, and a length is a capacity: four words an operator, three a label, one an operand, an entry and an address.
#[derive(Drop)]
pub struct Buffers<'a> {
    pub operators: &'a mut [u32],
    pub labels: &'a mut [u32],
    pub operand_stack: &'a mut [u32],
    pub call_stack: &'a mut [u32],
    pub memory: &'a mut [u32],
}

impl<'a> Buffers<'a> {
    ghost use Rattle.start.specs.Begun.{Begins, buffers_of};

    /// Compiles the text into the tables, and begins an evaluation of it: a fresh state, and a memory of zeros. A refused text is not evaluated: the
    /// error is that of compile.
    #[tactic(auto, unfolding(stack_assembly::specs::Evaluator::begun))]
    pub fn begin(self, text: &'a [u8]) -> Result<Eval<'a>, CompileError>
        ensures { Begins text.now (buffers_of self.entry) result }
    {
        let Buffers {
            operators,
            labels,
            operand_stack,
            call_stack,
            memory,
        } = self;
        let counts = compile::compile(text, operators, labels)?;
        let state = State::new(memory);
        let tables = Tables {
            text,
            operators,
            labels,
            operator_count: counts.operators,
            label_count: counts.labels,
        };
        Ok(Eval {
            state,
            tables,
            operand_stack,
            call_stack,
            memory,
        })
    }
}
