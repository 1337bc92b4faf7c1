// Where white space, a comment or a token ends.
ghost use Rattle.std.specs.Prelude.{IfSome, true, ◌≡◌, ◌≢◌, ◌<◌, length, slice_index};
ghost use Rattle.std.specs.Str.{IsCharBoundary};
ghost use Rattle.utf8.specs.WhiteSpace.{white};
ghost use Rattle.tokens.specs.Private.{Between, Ends, Ink};

use crate::plain::plain_end;
use memchr::memchr;

// White space in ASCII. (`u8::is_ascii_whitespace` leaves U+000B out.)
#[tactic(auto, unfolding(utf8::specs::WhiteSpace::white))]
fn is_blank(b: u8) -> bool
    ensures { result ≡ true → (b < 0x80) × (white b ≡ true) }
{
    matches!(b, b'\t'..=b'\r' | b' ')
}

// Past white space in ASCII. (By `position` over the rest it proves; texts with single blanks then took 4 % more instructions, those with runs of blanks 8 to
// 20 %.)
pub(crate) fn blank_end(text: &str, from: usize) -> usize
    requires { IsCharBoundary text.now from }
    ensures { Between text.now from result }
{
    let bytes = text.as_bytes();
    let mut end = from;
    while end < bytes.len() && is_blank(bytes[end]) {
        end += 1;
    }
    end
}

// Past the line feed that closes the comment which the `#` at start opens, or past all.
pub(crate) fn comment_end(text: &str, start: usize) -> usize
    requires { (start < length text.now) × (slice_index text.now start ≡ 0x23) }
    ensures between { Between text.now start result }
    ensures on { start < result }
{
    let bytes = text.as_bytes();
    // A `#` alone in its line: by memchr, lines of it took 1.6 times as long.
    let next = start + 1;
    if next < bytes.len() && bytes[next] == b'\n' {
        return next + 1;
    }
    match memchr(b'\n', &text.as_bytes()[start..]) {
        Some(line_feed) => start + line_feed + 1,
        None => text.len(),
    }
}

// How wide the character is that begins at an offset, where its first bytes tell that it is no white space.
#[inline(always)]
fn ink_width(bytes: &[u8], at: usize) -> Option<usize>
    requires { at < length bytes.now }
    ensures { IfSome result (λ width. Ink bytes.now at width) }
{
    let first = bytes[at];
    if first < 0x80 {
        return if b'!' <= first {
            Some(1)
        } else if first < b'\t' {
            Some(1)
        } else {
            None
        };
    }
    if first >= 0xE4 {
        return if first < 0xF0 { Some(3) } else { Some(4) };
    }
    if 0xC3 <= first && first < 0xE0 {
        return Some(2);
    }
    // U+3000 is the last white space.
    if first == 0xE3 && at + 1 < bytes.len() && bytes[at + 1] > 0x80 {
        return Some(3);
    }
    None
}

// Where the token ends that starts at start, and where to read on: past the white space that ends it. Where white space stands at start, it ends there.
pub(crate) fn token_end(text: &str, start: usize) -> (usize, usize)
    requires { (start < length text.now) × (slice_index text.now start ≢ 0x23) × IsCharBoundary text.now start }
    ensures { Ends text.now start result.0 result.1 }
{
    let bytes = text.as_bytes();
    let mut end = plain_end(bytes, start);
    // A loop, since the answer needs the place before and after each character. With `text[end..].chars().next()` and `is_whitespace` for each of them, texts of
    // other characters than ASCII took 2 to 4 times as long.
    while end < bytes.len() {
        if is_blank(bytes[end]) {
            return (end, end + 1);
        }
        if let Some(width) = ink_width(bytes, end) {
            end += width;
            continue;
        }
        let Some(c) = text[end..].chars().next() else {
            return (end, end);
        };
        if c.is_whitespace() {
            return (end, end + c.len_utf8());
        }
        end += c.len_utf8();
    }
    (end, end)
}
