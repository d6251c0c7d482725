// What the calls of a compaction worker do, as definitions, the faults that they end with, and the
// test whether a job's context extends another.
#![tactic(auto)]

pub mod context;
pub mod fault;
