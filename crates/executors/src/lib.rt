// Executors of compaction jobs, and what a worker reads: a clock and manifests.
#![tactic(auto)]

pub mod clock;
pub mod compactor_executor;
mod job_table;
pub mod list_executor;
pub mod manifest_source;
pub mod next_notice;
pub mod oldest_executor;
pub mod table_executor;
