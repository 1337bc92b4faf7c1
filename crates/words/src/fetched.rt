// What a step learns from the script. The cases are the definition's, and one is no error of another: what an evaluation makes of each, `evaluate` says.
use crate::word::Word;

/// What a step evaluates: all that it learns from the script.
#[derive(Clone, Copy, PartialEq, Eq, Debug)]
pub enum Fetched {
    /// Past the last operator.
    Past,
    /// A record that is needed is damaged, at this place of its table.
    Damaged(usize),
    /// An integer, or a reference with the operator index of its label.
    Integer(u32),
    /// A reference without a label.
    Unresolved,
    /// An identifier that is one of the 30 words.
    Word(Word),
    /// An identifier that is none of them.
    Unknown,
}
