//! The fields of recorded cases: parts of lists of numbers, as their files hold them.
#![tactic(auto)]

mod list;
mod numbers;
mod parts;

pub use list::List;
pub use numbers::Numbers;
pub use parts::{after, first, number};
