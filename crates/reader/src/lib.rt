//! What stands at the front of any bytes, read with no text asked for: a character, a token from any offset on, up to eight bytes as a number.
#![tactic(auto)]

mod chars;
mod packed;
mod reader;
mod scan;
mod white_space;

pub use chars::{Char, first_char, is_ascii};
pub use packed::{first_bytes, first_eight};
pub use reader::{Reader, read_token};
pub use scan::Next;
pub use white_space::is_white_space;
