// A script, by the words of its records.

/// A compiled script: its text, and the words of its records in both tables, no more.
#[derive(Clone, Copy)]
pub struct Script<'a> {
    pub text: &'a [u8],
    pub operators: &'a [u32],
    pub labels: &'a [u32],
}
