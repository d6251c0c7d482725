// An executor that finishes its oldest job at each take.
ghost use Rattle.std.specs.Prelude.{◌≡◌, []};
ghost use Rattle.executors.specs.Jobs.{oldest_notice};
ghost use Rattle.executors.specs.Oldest.{oldest_jobs};
ghost use Rattle.executors.specs.Running.{oldest_runs};

use crate::compactor_executor::WorkerMessage;
use crate::job_table::JobTable;
use crate::next_notice::NextNotice;
use crate::table_executor::TableExecutor;
use compactions::db_state::SortedRun;

pub type OldestExecutor = TableExecutor<OldestFinishes>;

// A finish of the oldest job, whenever one is asked for.
#[derive(Drop)]
pub struct OldestFinishes;

impl TableExecutor<OldestFinishes> {
    pub fn new() -> OldestExecutor
        ensures { oldest_jobs result ≡ record { running = []; next = 0 } }
    {
        TableExecutor::over(OldestFinishes)
    }
}

impl NextNotice for OldestFinishes {
    ghost coming = { λ _ t. oldest_notice t };

    ghost behind = { λ s _. s };

    ghost of_running = { λ _ t. oldest_runs t };

    // The job of the least start, finished with the views of its arguments as its run.
    fn next_notice(&mut self, jobs: &JobTable) -> Option<WorkerMessage> {
        let args = jobs.oldest()?.args;
        let run = SortedRun {
            id: args.destination,
            sst_views: args.l0_sst_views,
        };
        Some(WorkerMessage::CompactionJobFinished {
            id: args.id,
            result: Ok(run),
        })
    }
}
