// An examination paper on the argument check: a manifest, compaction entries and a candidate's
// answers, read from text, put to the check, marked and shown.
#![tactic(auto)]

mod answer_lines;
mod entries;
pub mod reader;
pub mod show;
