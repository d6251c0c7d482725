// What a worker asks of an executor, and the notices that it takes from it.
//
// The trait is reworked from src/compactor_executor.rs and the notices from
// src/compaction_worker.rs of slatedb 0.16.0 (Apache-2.0, see NOTICE); changed: a start answers
// whether the job runs, notices are taken one by one in place of being sent, a failure is a number.
ghost use Rattle.std.specs.Prelude.{◌≡◌, ◌≤◌, ℕ, [], if◌then◌else◌};
ghost use Rattle.std.specs.Option.{option_map};
ghost use Rattle.table.specs.Ids.{number};
ghost use Rattle.table.specs.Tables.{holds, put, strike};
ghost use Rattle.compactions.specs.Jobs.{args_of};
ghost use Rattle.executors.specs.Executors.{Capacity, Running, job_id, notice_id, may_start, Takes};
ghost use Rattle.executors.specs.Notices.{notice_of};

use compactions::compactor_state::CompactionContext;
use compactions::db_state::SortedRun;
use compactions::job_args::StartCompactionJobArgs;
use table::ulid::Ulid;

// What an executor tells of a job: how far it is, or how it ended; the failure is a number that the
// rules give no cases.
#[derive(Clone, Copy)]
pub enum WorkerMessage {
    CompactionJobProgress {
        id: Ulid,
        ctx: CompactionContext,
    },
    CompactionJobFinished {
        id: Ulid,
        result: Result<SortedRun, u32>,
    },
}

impl WorkerMessage {
    // The job that the notice is of.
    pub(crate) fn id(&self) -> Ulid
        ensures { number result ≡ notice_id (notice_of self.now) }
    {
        match self {
            WorkerMessage::CompactionJobProgress { id, .. }
            | WorkerMessage::CompactionJobFinished { id, .. } => *id,
        }
    }
}

pub trait CompactionExecutor {
    // How many jobs can run at once.
    const PLACES: usize;

    // the constant, as a generic impl knows it
    ghost PLACES: { ℕ };

    // what each `impl` must prove of it
    ghost at_least_eight: { 8 ≤ PLACES };

    // the same number, eight or more: `place_count` holds the constant to it
    ghost places: { Capacity };

    // the arguments of the running jobs, ascending by id, no more than the places
    ghost jobs: { Self → Running places.count };

    fn place_count() -> usize
        ensures { result ≡ places.count };

    // Starts the job unless its id runs already or no place is free; the answer is yes or no.
    fn start_compaction_job(&mut self, args: StartCompactionJobArgs) -> bool
        ensures value { result ≡ may_start places.count (args_of args).id (jobs self.old).list }
        ensures jobs { (jobs self.new).list ≡ (if result then put job_id (args_of args) (jobs self.old).list else (jobs self.old).list) };

    // Ends the job, and says whether it ran.
    fn stop_compaction_job(&mut self, id: Ulid) -> bool
        ensures value { result ≡ holds job_id (number id) (jobs self.old).list }
        ensures jobs { (jobs self.new).list ≡ strike job_id (number id) (jobs self.old).list };

    // Ends every job.
    fn stop(&mut self)
        ensures { (jobs self.new).list ≡ [] };

    // The next notice of a running job, if there is one; a finish ends its job.
    fn take(&mut self) -> Option<WorkerMessage>
        ensures { Takes (jobs self.old).list (option_map notice_of result) (jobs self.new).list };
}
