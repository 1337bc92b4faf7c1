//! Products, the signed division, a count of bits and rotations of words, as Rust's i32 and u32 gave them. The other definitions in specs/Word.antt are for the
//! crate machine.
#![tactic(auto)]

mod arithmetic;
mod bits;
mod division;
mod worked_examples;

pub use arithmetic::wrapping_mul;
pub use bits::{count_ones, rotate_left, rotate_right};
pub use division::{DivisionError, divide};
pub use worked_examples::examples_hold;
