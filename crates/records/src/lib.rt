//! What is lent of a script: the records that stand in its tables of words, which compile writes and a step reads, the script of those that count, and the
//! source of an operator.
#![tactic(auto)]

mod counts;
mod label;
mod operator;
mod record;
mod script;
mod source;
mod tables;

pub use counts::Counts;
pub use label::LabelRecord;
pub use operator::{OperatorKind, OperatorRecord};
pub use record::{Damaged, OverCapacity, Record};
pub use script::Script;
pub use tables::Tables;
