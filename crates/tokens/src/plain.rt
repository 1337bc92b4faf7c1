// Bytes that stand in a token, eight at a time: byte by byte, compile took 1.35 times as long; character by character, 1.8 times.
ghost use Rattle.std.specs.Prelude.{◌≤◌, length};
ghost use Rattle.tokens.specs.Private.{Flags, Plain};

// `!` in each byte.
const FIRST_PLAIN: u64 = 0x2121_2121_2121_2121;

// The top bit of each byte.
const TOP_BITS: u64 = 0x8080_8080_8080_8080;

// The top bit of a byte of word is set at the first byte that is not from `!` up to 0x7F, and at none before it.
#[inline(always)]
#[tactic(auto, using(crate::proofs::Flagged::flags_eight))]
fn flags(word: u64) -> u64
    ensures { Flags word result }
{
    (word.wrapping_sub(FIRST_PLAIN) | word) & TOP_BITS
}

// Past bytes from `!` up to 0x7F, if not past all of them: of the last seven bytes none is looked at.
pub(crate) fn plain_end(bytes: &[u8], start: usize) -> usize
    requires { start ≤ length bytes.now }
    ensures { Plain bytes.now start result }
{
    let mut rest = &bytes[start..];
    let mut end = start;
    while let Some((eight, later)) = rest.split_first_chunk() {
        let flags = flags(u64::from_le_bytes(*eight));
        if flags != 0 {
            return end + (flags.trailing_zeros() / 8) as usize;
        }
        rest = later;
        end += 8;
    }
    end
}
