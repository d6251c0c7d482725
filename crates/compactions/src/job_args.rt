// What a job is started with.
//
// Reworked from `StartCompactionJobArgs` in src/compactor_executor.rs of slatedb 0.16.0
// (Apache-2.0, see NOTICE); changed: fixed sizes, one id for job and compaction.
use crate::compactor_state::CompactionContext;
use crate::db_state::{SortedRun, SsTableView};
use crate::rows::Rows;
use table::ulid::Ulid;

#[derive(Clone, Copy)]
pub struct StartCompactionJobArgs {
    pub id: Ulid,
    pub destination: u32,
    pub l0_sst_views: Rows<SsTableView, 8>,
    pub sorted_runs: Rows<SortedRun, 8>,
    pub compaction_clock_tick: i64,
    pub is_dest_last_run: bool,
    pub retention_min_seq: u64,
    pub ctx: Option<CompactionContext>,
}
