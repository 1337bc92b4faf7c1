// How many records a script has.

/// How many operators and labels a script has: compile gives them, and they go with its tables into later calls.
#[derive(Clone, Copy, Debug, PartialEq, Eq)]
pub struct Counts {
    pub operators: usize,
    pub labels: usize,
}
