// A script's text, which is refused early where a front of it is ill-formed.
ghost use Rattle.std.specs.Prelude.{◌≡◌, ◌<◌, ◌≤◌, ◌+◌, IfErr, MatchResult, length};
ghost use Rattle.std.proofs.Math.Option.{none, some};
ghost use Rattle.utf8.specs.Utf8.{chars, ill_formed_at};

use utf8::{IllFormed, text_of};

// How many bytes a character has at most.
const LONGEST_CHARACTER: usize = 4;

// A place where no character of a well-formed text is cut: the given one, or one of the three before it.
fn uncut(bytes: &[u8], at: usize) -> usize
    requires { (3 ≤ at) × (at < length bytes.now) }
    ensures { (result ≤ at) × (at ≤ result + 3) }
{
    for back in 0..3 {
        if !matches!(bytes[at - back], 0x80..=0xBF) {
            return at - back;
        }
    }
    at - 3
}

// Refuses a text for an ill-formed sequence that a front of so many bytes shows, where that is at most an eighth of the text.
// (At a cut character `text_of` would read the front a second time, byte by byte.)
#[tactic(auto, using(crate::proofs::Fronts::ill_formed_in_front))]
fn refuse_by_front(bytes: &[u8], front: usize) -> Result<(), IllFormed>
    requires { 7 ≤ front }
    ensures { IfErr result (λ e. ill_formed_at (chars bytes.now) ≡ some e.offset) }
{
    if bytes.len() / 8 < front {
        return Ok(());
    }
    let end = uncut(bytes, front);
    match text_of(&bytes[..end]) {
        // What starts later may be a character that is cut.
        Err(error) if error.offset <= end - LONGEST_CHARACTER => Err(error),
        _ => Ok(()),
    }
}

// The text that the bytes are, as `text_of` says, which looks at all of them before it says where they are ill-formed: of 60,000 bytes whose fourth is
// at fault it took 30,000 instructions, and with the fronts 530. What is well-formed is looked at for a sixth longer at most.
pub(crate) fn text_by_fronts(bytes: &[u8]) -> Result<&str, IllFormed>
    ensures { MatchResult result
        (λ text. (text.now ≡ bytes.now) × (ill_formed_at (chars bytes.now) ≡ none))
        (λ e. ill_formed_at (chars bytes.now) ≡ some e.offset) }
{
    refuse_by_front(bytes, 256)?;
    refuse_by_front(bytes, 1024)?;
    refuse_by_front(bytes, 4096)?;
    text_of(bytes)
}
