// The lines of a paper that describe an entry.
#![tactic(auto)]

pub mod draft;
mod parts;
