// Words in bytes: a list of words is a list of bytes, four a word, the lowest first; a float is the word of its bit pattern.
#![tactic(auto)]

pub mod inner;
