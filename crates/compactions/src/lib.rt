// Compaction jobs and manifests as values of fixed size.
#![tactic(auto)]

pub mod compactor_state;
pub mod db_state;
pub mod job_args;
pub mod manifest;
mod prefix;
pub mod refusal;
mod show;

pub use table::rows;
