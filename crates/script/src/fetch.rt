// The operators of a script.
ghost use Rattle.std.specs.Prelude.{◌≡◌};
ghost use Rattle.stack_assembly.specs.Step.{fetched, resolved, identified};
ghost use Rattle.stack_assembly.specs.Words.{lookup, words};
ghost use Rattle.records.specs.Lent.{says};
ghost use Rattle.script.specs.Private.{labels_said};

use records::{LabelRecord, OperatorKind, OperatorRecord, Record, Script};
use words::{Fetched, Word};

#[inline(always)]
fn identify(name: &[u8]) -> Fetched
    ensures { result ≡ identified (lookup name.now words) }
{
    match Word::from_name(name) {
        Some(word) => Fetched::Word(word),
        None => Fetched::Unknown,
    }
}

// The operator of the first label of that name. By index, as a damaged record is answered by its own.
#[tactic(auto, using(crate::proofs::Resolved::none_left, crate::proofs::Resolved::damaged_here, crate::proofs::Resolved::named_here, crate::proofs::Resolved::not_here))]
fn resolve(text: &[u8], labels: &[u32], name: &[u8]) -> Fetched
    ensures { result ≡ resolved text.now name.now 0 (labels_said labels.now) }
{
    for i in 0..LabelRecord::capacity(labels) {
        let Ok(label) = LabelRecord::read(labels, i, text) else {
            return Fetched::Damaged(i);
        };
        if &text[label.range()] == name {
            return Fetched::Integer(label.operator);
        }
    }
    Fetched::Unresolved
}

/// The operator at an index: an integer or a short word at once, all else by a look-up.
// At once on raw words, since a short word's own tests see to its range: by OperatorRecord::read an integer took 27 instructions for 23, a short word
// 43 for 31.
#[inline(always)]
#[tactic(auto, using(crate::proofs::Fetched::raw_integer))]
pub(crate) fn fetch(script: Script<'_>, next: u32) -> Fetched
    ensures { result ≡ fetched (says script.entry) next }
{
    let at = next as usize;
    if at < OperatorRecord::capacity(script.operators) {
        let [kind, start, end, value] = OperatorRecord::raw(script.operators, at);
        if kind == OperatorKind::INTEGER {
            if start < end && end as usize <= script.text.len() {
                return Fetched::Integer(value);
            }
        } else if kind == OperatorKind::IDENTIFIER && start as usize + 8 <= script.text.len() {
            if let Some(word) = Word::short(script.text, start, end) {
                return Fetched::Word(word);
            }
        }
    }
    look_up_by_call(script, next)
}

// A function of its own, and a match that makes the same again, give the call's result a place of its own: else each fetch clears one, and straight lines
// took 2 to 9 % more instructions, a step call 1 %.
#[inline(always)]
fn look_up_by_call(script: Script<'_>, next: u32) -> Fetched
    ensures { result ≡ fetched (says script.entry) next }
{
    match look_up(script, next) {
        Fetched::Past => Fetched::Past,
        Fetched::Damaged(place) => Fetched::Damaged(place),
        Fetched::Integer(value) => Fetched::Integer(value),
        Fetched::Unresolved => Fetched::Unresolved,
        Fetched::Word(word) => Fetched::Word(word),
        Fetched::Unknown => Fetched::Unknown,
    }
}

#[inline(never)]
#[tactic(auto, using(crate::proofs::Fetched::past_there, crate::proofs::Fetched::damaged_there, crate::proofs::Fetched::identifier_there, crate::proofs::Fetched::integer_there, crate::proofs::Fetched::reference_there))]
fn look_up(script: Script<'_>, next: u32) -> Fetched
    ensures { result ≡ fetched (says script.entry) next }
{
    let at = next as usize;
    if OperatorRecord::capacity(script.operators) <= at {
        return Fetched::Past;
    }
    let Ok(record) = OperatorRecord::read(script.operators, at, script.text) else {
        return Fetched::Damaged(at);
    };
    let source = &script.text[record.range()];
    match record.kind {
        OperatorKind::Identifier => identify(source),
        OperatorKind::Integer => Fetched::Integer(record.value),
        OperatorKind::Reference => resolve(script.text, script.labels, &source[1..]),
    }
}
