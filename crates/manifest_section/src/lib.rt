// The lines of a paper that describe a manifest.
#![tactic(auto)]

pub mod draft;
mod parts;
