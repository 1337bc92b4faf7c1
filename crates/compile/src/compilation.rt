// Compile: a text's records, in tables that the caller lends.
ghost use Rattle.std.specs.Prelude.{true, ◌≡◌, ◌≤◌, ◌*◌, ◌++◌, IfOk, drop, length};
ghost use Rattle.stack_assembly.specs.Promise.{Compiles};
ghost use Rattle.compile.specs.Answers.{compilation};
ghost use Rattle.compile.specs.Private.{HasRoom};

use crate::pass::pass;
use crate::text::text_by_fronts;
use answers::{CompileError, LONGEST_TEXT};
use records::{Counts, LabelRecord, OperatorRecord, Record};

// The records of a short script, which wait until it is known to be accepted.
const WAITING_OPERATORS: usize = 256;

const WAITING_LABELS: usize = 64;

// Whether no count is needed to see that the tables have room.
fn surely_have_room(text: &str, operators: &[u32], labels: &[u32]) -> bool
    requires { length text.now ≤ LONGEST_TEXT }
    ensures { result ≡ true → HasRoom text.now operators.now labels.now }
{
    // Each token has a byte, and another parts it from the next.
    let most = (text.len() + 1) / 2;
    most <= OperatorRecord::capacity(operators) && most <= LabelRecord::capacity(labels)
}

fn copy_words(words: &[u32], table: &mut [u32])
    requires { length words.now ≤ length table.old }
    ensures { table.new ≡ words.now ++ drop (length words.now) table.old }
{
    table[..words.len()].copy_from_slice(words);
}

/// Compiles a script: writes the records of its operators and labels to the front of the two tables, and answers how many there are.
///
/// A script that is refused leaves both tables as they were, and one that is accepted every word of them behind its records.
// A text and two lent tables, which every caller has apart. Where the tables surely have room, one pass writes. The records of a short script else wait in tables
// of its own, of a fixed size as there is no heap, until it is known to be accepted (to read it twice took 1.45 times as long); a longer one is read twice.
pub fn compile(
    text: &[u8],
    operators: &mut [u32],
    labels: &mut [u32],
) -> Result<Counts, CompileError>
    ensures compiles { Compiles text.now operators.old labels.old (compilation result operators.new labels.new) }
    ensures operators { IfOk result (λ counts. 4 * counts.operators ≤ length operators.new) }
    ensures labels { IfOk result (λ counts. 3 * counts.labels ≤ length labels.new) }
{
    if LONGEST_TEXT < text.len() {
        return Err(CompileError::TooLong);
    }
    let text = text_by_fronts(text)?;
    if surely_have_room(text, operators, labels) {
        return Ok(pass(text, operators, labels));
    }
    let mut waiting_operators = [0; OperatorRecord::WORDS * WAITING_OPERATORS];
    let mut waiting_labels = [0; LabelRecord::WORDS * WAITING_LABELS];
    let counts = pass(text, &mut waiting_operators, &mut waiting_labels);
    if OperatorRecord::capacity(operators) < counts.operators {
        return Err(CompileError::TooManyOperators(counts.operators));
    }
    if LabelRecord::capacity(labels) < counts.labels {
        return Err(CompileError::TooManyLabels(counts.labels));
    }
    if WAITING_OPERATORS < counts.operators || WAITING_LABELS < counts.labels {
        return Ok(pass(text, operators, labels));
    }
    copy_words(
        &waiting_operators[..counts.operators * OperatorRecord::WORDS],
        operators,
    );
    copy_words(
        &waiting_labels[..counts.labels * LabelRecord::WORDS],
        labels,
    );
    Ok(counts)
}
