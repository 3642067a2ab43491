// Replays stored answers of the Rust to frames, to sums over frame indexes, to retention traces and to both calls of expansion, through
// the C entries. Standard input has a line for each: the call and its answer, as hexadecimal words with one space between. A line that
// starts with '#' is passed over.
#![tactic(auto)]

mod alone;
mod first_call;
mod frames;
mod lines;
mod second_call;
mod sums;

use lines::ROOM;
use test_hex_lines::parts::{Line, spread, word};

// None where a line is too short to be compared. A match on the function, whose number the stored line has.
fn agrees_in(function: u32, line: &mut Line<'_>) -> Option<bool> {
    match function {
        1 => frames::agrees(line),
        7 => alone::noise_agrees(line),
        8 => alone::search_agrees(line),
        9 => alone::fallback_agrees(line),
        10 => first_call::agrees(line),
        11 | 12 => second_call::agrees(line),
        _ => sums::agrees(line),
    }
}

fn agrees(words: &[u32]) -> bool {
    let f: [f32; ROOM] = spread(words);
    agrees_in(word(words, 0), &mut Line::new(words, &f)).unwrap_or(false)
}

// The reading is shared (test_hex_lines::replay); the print needs the runtime.
fn main(rt: HostRuntime) {
    let tally = test_hex_lines::replay::replay_all::<{ lines::ROOM }, _>(&mut rt.stdin(), |words| {
        agrees(words)
    });
    let _ = println!(rt; "{tally}");
}
