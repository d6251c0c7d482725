// An executor over a table of at most eight jobs; what its notices are is left to their source.
ghost use Rattle.std.specs.Prelude.{◌≡◌, [], if◌then◌else◌};
ghost use Rattle.std.specs.Option.{option_map};
ghost use Rattle.table.specs.Ids.{number};
ghost use Rattle.table.specs.Tables.{holds, put, strike};
ghost use Rattle.compactions.specs.Jobs.{args_of};
ghost use Rattle.executors.specs.Executors.{job_id, may_start, Takes};
ghost use Rattle.executors.specs.Notices.{notice_of};
ghost use Rattle.executors.specs.Jobs.{args_in, begun, ended, emptied, settled};
ghost use Rattle.executors.specs.Tables.{eight, running_in};
ghost use Rattle.executors.specs.TableExecutors.{jobs_of};

use crate::compactor_executor::{CompactionExecutor, WorkerMessage};
use crate::job_table::JobTable;
use crate::next_notice::NextNotice;
use compactions::job_args::StartCompactionJobArgs;
use table::ulid::Ulid;

// The running jobs, and where the notices of them come from.
#[derive(Drop)]
pub struct TableExecutor<N> {
    jobs: JobTable,
    notices: N,
}

impl<N: NextNotice> TableExecutor<N> {
    // Without a job.
    pub(crate) fn over(notices: N) -> TableExecutor<N>
        ensures jobs { jobs_of result ≡ record { running = []; next = 0 } }
        ensures notices { result.notices ≡ notices }
    {
        TableExecutor {
            jobs: JobTable::new(),
            notices,
        }
    }
}

// A clause `notices` says of each call but a take that no notice is used up.
impl<N: NextNotice> CompactionExecutor for TableExecutor<N> {
    const PLACES: usize = 8;

    ghost PLACES = { 8 };

    ghost at_least_eight = { eight.enough };

    ghost places = { eight };

    ghost jobs = { λ e. running_in e.jobs };

    fn place_count() -> usize
        ensures { result ≡ 8 }
    {
        Self::PLACES
    }

    fn start_compaction_job(&mut self, args: StartCompactionJobArgs) -> bool
        ensures value { result ≡ may_start 8 (args_of args).id (args_in (jobs_of self.old)) }
        ensures jobs { args_in (jobs_of self.new) ≡ (if result then put job_id (args_of args) (args_in (jobs_of self.old)) else args_in (jobs_of self.old)) }
        ensures after { jobs_of self.new ≡ (if result then begun (args_of args) (jobs_of self.old) else jobs_of self.old) }
        ensures notices { self.new.notices ≡ self.old.notices }
    {
        self.jobs.start(args)
    }

    fn stop_compaction_job(&mut self, id: Ulid) -> bool
        ensures value { result ≡ holds job_id (number id) (args_in (jobs_of self.old)) }
        ensures jobs { args_in (jobs_of self.new) ≡ strike job_id (number id) (args_in (jobs_of self.old)) }
        ensures after { jobs_of self.new ≡ ended (number id) (jobs_of self.old) }
        ensures notices { self.new.notices ≡ self.old.notices }
    {
        self.jobs.end(id)
    }

    fn stop(&mut self)
        ensures jobs { args_in (jobs_of self.new) ≡ [] }
        ensures after { jobs_of self.new ≡ emptied (jobs_of self.old) }
        ensures notices { self.new.notices ≡ self.old.notices }
    {
        self.jobs.clear();
    }

    // The next notice of the source.
    fn take(&mut self) -> Option<WorkerMessage>
        ensures takes { Takes (args_in (jobs_of self.old)) (option_map notice_of result) (args_in (jobs_of self.new)) }
        ensures notice { option_map notice_of result ≡ N.coming self.old.notices (jobs_of self.old) }
        ensures after { jobs_of self.new ≡ settled (option_map notice_of result) (jobs_of self.old) }
        ensures notices { self.new.notices ≡ N.behind self.old.notices (jobs_of self.old) }
    {
        let notice = self.notices.next_notice(&self.jobs)?;
        self.jobs.settle(notice);
        Some(notice)
    }
}
