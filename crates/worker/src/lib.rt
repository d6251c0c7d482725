// A compaction worker: it claims jobs of a record, runs them on its executor, and settles what became of them.
#![tactic(auto)]

mod claims;
pub mod compaction_worker;
mod dispatch;
mod entry_work;
pub mod job_progress;
pub mod making;
pub mod notices;
mod owned_jobs;
mod owning;
pub mod polls;
pub mod settling;
