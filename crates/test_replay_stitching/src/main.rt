// Replays stored answers of the Rust to lists to stitch, through the C entry. Standard input has a line for each: the call and its
// answer, as hexadecimal words with one space between (specs/Replay.antt). A line that starts with '#' is passed over.
#![tactic(auto)]

mod calls;
mod words;

ghost use Rattle.std.specs.Prelude.{◌≡◌, ℕ, List};
ghost use Rattle.std.specs.List.{fold};
ghost use Rattle.test_hex_lines.specs.Lines.{at_start, replayed};
ghost use Rattle.test_replay_stitching.specs.Replay.{room, agrees};

use std::io::Read;
use test_hex_lines::replay::{Tally, replay_all};

// Counts the lines that are read, and those among them that do not have their answer. The contract speaks of some bytes: it cannot say
// that they are those of the input.
fn replay(input: &mut impl Read) -> Tally
    ensures { (bytes : List ℕ) × (result ≡ (fold (replayed agrees room) at_start bytes).tally) }
{
    replay_all::<{ words::ROOM }, _>(input, |line| calls::is_right(line))
}

fn main(rt: HostRuntime) {
    let tally = replay(&mut rt.stdin());
    let _ = println!(rt; "{tally}");
}
