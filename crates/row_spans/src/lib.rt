// How far an apex reaches at its half height: crossings, width, area.
#![tactic(auto)]

pub mod inner;
