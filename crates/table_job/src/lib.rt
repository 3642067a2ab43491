// What the program `peaktable` does between a call of the system and the next: no step here reads or writes.
#![tactic(auto)]

pub mod inner;
