// What can be wrong with a line of a paper, and how it is said.
#![tactic(auto)]

pub mod error;
pub mod expected;
pub mod once;
pub mod text;
