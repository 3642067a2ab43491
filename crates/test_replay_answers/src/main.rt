// Replays stored answers of the Rust. Standard input has a line for each: the number of a function, its arguments and the
// answer, as hexadecimal words with one space between. A line that starts with '#' is passed over.
#![tactic(auto)]

mod leaves;
mod levels;
mod lines;
mod scales;

use lines::{Lent, ROOM};
use test_hex_lines::parts::{Line, spread, word};

// Whether a line has the port's answer, with fresh lists lent; None where it is too short to be compared.
fn judged(words: &[u32]) -> Option<bool> {
    let floats: [f32; ROOM] = spread(words);
    let mut line = Line::new(words, &floats);
    let mut lent = Lent::new();
    match word(words, 0) {
        0..32 => leaves::leaf(&mut line)?.judged(&lent, line),
        32 => levels::row(&mut line, &mut lent)?.judged(&lent, line),
        33 => levels::smoothing(&mut line, &mut lent)?.judged(&lent, line),
        40 => scales::build(&mut line)?.judged(&lent, line),
        48 => levels::grid(&mut line, &mut lent)?.judged(&lent, line),
        _ => scales::scale(&mut line)?.judged(&lent, line),
    }
}

fn agrees(words: &[u32]) -> bool {
    judged(words).unwrap_or(false)
}

// The reading is shared (test_hex_lines::replay); the print needs the runtime.
fn main(rt: HostRuntime) {
    let tally = test_hex_lines::replay::replay_all::<{ lines::ROOM }, _>(&mut rt.stdin(), |words| {
        agrees(words)
    });
    let _ = println!(rt; "{tally}");
}
