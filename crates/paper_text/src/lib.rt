// The text that papers are written in: its lines, their words, and the numbers that words write.
#![tactic(auto)]

pub mod lines;
pub mod numbers;
pub mod segments;
pub mod words;
