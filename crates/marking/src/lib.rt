// A candidate's answers on the argument check, and their marks.
#![tactic(auto)]

pub mod answer;
pub mod marks;
pub mod show;
