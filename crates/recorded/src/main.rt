//! Plays a fixed list of the Rust's answers through the engine's calls; what it prints is held to the file `stdout`.
#![tactic(auto)]

mod call;
mod case;
mod kind;
mod tally;

use std::io;
use tally::Tally;

static KINDS: [&str; 9] = [
    "short_texts",
    "scalar_values",
    "numbers",
    "random_texts",
    "words_on_edge_values",
    "short_scripts",
    "random_scripts",
    "loops",
    "lists_of_calls",
];

fn main(rt: HostRuntime) -> io::Result<()> {
    let mut all = Tally::new();
    for name in KINDS {
        let tally = kind::played(&rt, name)?;
        println!(rt; "{name}: {tally}")?;
        all = all.plus(tally);
    }
    println!(rt; "{all}")?;
    // One case, once for each of its answers, with that answer changed: none agrees.
    let altered = kind::played(&rt, "altered")?;
    println!(rt; "altered: {altered}")
}
