// A case: what it is played on, its calls, and what these leave.
ghost use Rattle.std.specs.Prelude.{◌<◌, ◌↔◌, IsTrue, OnSome, length};
ghost use Rattle.recorded.specs.Ends.{EndsAs};

use crate::call;
use eval::Eval;
use fields::List;
use records::{LabelRecord, OperatorRecord, Record};
use start::Buffers;

// The greatest sizes of a case: its text in bytes, the buffers in words, the rest in records and calls.
const TEXT_BYTES: usize = 400;

const OPERAND_WORDS: usize = 64;

const CALL_WORDS: usize = 16;

const MEMORY_WORDS: usize = 20;

const OPERATORS: usize = 128;

const LABELS: usize = 64;

const CALLS: usize = 20;

/// In the order of the sizes that a case begins with; the last two are the depths at the end.
static GREATEST: [usize; 9] = [
    TEXT_BYTES,
    OPERAND_WORDS,
    CALL_WORDS,
    MEMORY_WORDS,
    OPERATORS,
    LABELS,
    CALLS,
    OPERAND_WORDS,
    CALL_WORDS,
];

/// What the calls leave: both stacks from the bottom up, and the memory.
#[derive(Clone, Copy)]
struct End<'a> {
    operands: &'a [u32],
    calls: &'a [u32],
    memory: &'a [u32],
}

impl End<'_> {
    // A case and an evaluation are two types, so no derive compares them.
    fn is_of(&self, eval: &Eval<'_>) -> bool
        ensures { IsTrue result ↔ EndsAs eval.now self.now }
    {
        eval.operands() == self.operands
            && eval.calls() == self.calls
            && *eval.memory == *self.memory
    }
}

/// The sizes of the buffers are in words; the tables have just the words of their records.
#[derive(Clone, Copy)]
pub(crate) struct Case<'a> {
    text: &'a [u32],
    operand_words: usize,
    call_words: usize,
    operators: &'a [u32],
    labels: &'a [u32],
    calls: &'a [u32],
    end: End<'a>,
}

impl<'a> Case<'a> {
    /// The first case of a list; none where a size is too great, or the list ends in it.
    pub(crate) fn read(list: &mut List<'a>) -> Option<Case<'a>>
        ensures { OnSome result (length list.new.rest.now < length list.old.rest.now) }
    {
        let sizes = list.take_array::<9>()?;
        for (&size, &greatest) in sizes.iter().zip(&GREATEST) {
            if greatest < size as usize {
                return None;
            }
        }
        let [
            bytes,
            operand_words,
            call_words,
            memory_words,
            operators,
            labels,
            calls,
            operands,
            entries,
        ] = sizes.map(|size| size as usize);
        Some(Case {
            text: list.take(bytes)?,
            operand_words,
            call_words,
            operators: list.take(OperatorRecord::WORDS * operators)?,
            labels: list.take(LabelRecord::WORDS * labels)?,
            calls: list.take(call::NUMBERS * calls)?,
            end: End {
                operands: list.take(operands)?,
                calls: list.take(entries)?,
                memory: list.take(memory_words)?,
            },
        })
    }

    /// Whether the calls, made now, answer and leave what was recorded.
    pub(crate) fn agrees(&self) -> bool {
        self.play().unwrap_or(false)
    }

    // In buffers of just the sizes that the case has, of a fixed size as there is no heap; none where its text is refused.
    fn play(&self) -> Option<bool> {
        let mut text = [9; TEXT_BYTES];
        let mut operators = [9; OperatorRecord::WORDS * OPERATORS];
        let mut labels = [9; LabelRecord::WORDS * LABELS];
        let mut operand_stack = [9; OPERAND_WORDS];
        let mut call_stack = [9; CALL_WORDS];
        let mut memory = [9; MEMORY_WORDS];
        let text = text.get_mut(..self.text.len())?;
        for (byte, number) in text.iter_mut().zip(self.text) {
            [*byte, ..] = number.to_le_bytes();
        }
        let buffers = Buffers {
            operators: operators.get_mut(..self.operators.len())?,
            labels: labels.get_mut(..self.labels.len())?,
            operand_stack: operand_stack.get_mut(..self.operand_words)?,
            call_stack: call_stack.get_mut(..self.call_words)?,
            memory: memory.get_mut(..self.end.memory.len())?,
        };
        let mut eval = buffers.begin(text).ok()?;
        Some(self.has_records_of(&eval) && self.calls_agree(&mut eval) && self.end.is_of(&eval))
    }

    // As `is_of`: of two types.
    fn has_records_of(&self, eval: &Eval<'_>) -> bool {
        let tables = eval.tables;
        tables.operator_count == OperatorRecord::capacity(self.operators)
            && tables.label_count == LabelRecord::capacity(self.labels)
            && tables.operators == self.operators
            && tables.labels == self.labels
    }

    fn calls_agree(&self, eval: &mut Eval<'_>) -> bool {
        let (calls, _) = self.calls.as_chunks::<{ call::NUMBERS }>();
        for call in calls {
            if !call::agrees(call, eval) {
                return false;
            }
        }
        true
    }
}
