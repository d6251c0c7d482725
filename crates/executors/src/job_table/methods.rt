ghost use Rattle.std.specs.Prelude.{◌≡◌, ◌+◌, [], map, drop, if◌then◌else◌, Some};
ghost use Rattle.std.specs.Option.{option_map};
ghost use Rattle.std.specs.List.{slice_get};
ghost use Rattle.table.specs.Ids.{number};
ghost use Rattle.table.specs.Tables.{holds, put, strike};
ghost use Rattle.compactions.specs.Jobs.{args_of};
ghost use Rattle.executors.specs.Executors.{job_id, may_start, left_by};
ghost use Rattle.executors.specs.Notices.{notice_of};
ghost use Rattle.executors.specs.Jobs.{id_of, args_in, begun, ended, emptied, settled, oldest};
ghost use Rattle.executors.specs.Tables.{job_of, table_of};
ghost use Rattle.executors.specs.Lists.{first_running, behind_running};

use super::{Job, JobTable, Row};
use crate::compactor_executor::WorkerMessage;
use compactions::db_state::SortedRun;
use compactions::job_args::StartCompactionJobArgs;
use compactions::manifest::LsmTreeState;
use table::fixed_table::FixedTable;
use table::ulid::Ulid;

// What fills the places that do not count.
fn blank() -> Job {
    let args = StartCompactionJobArgs {
        id: Ulid { high: 0, low: 0 },
        destination: 0,
        l0_sst_views: SortedRun::new(0).sst_views,
        sorted_runs: LsmTreeState::new().compacted,
        compaction_clock_tick: 0,
        is_dest_last_run: false,
        retention_min_seq: 0,
        ctx: None,
    };
    Job { args, started: 0 }
}

impl JobTable {
    // Without a job.
    pub(crate) fn new() -> JobTable
        ensures { table_of result ≡ record { running = []; next = 0 } }
    {
        JobTable {
            jobs: FixedTable::new(blank()),
            next: 0,
        }
    }

    // One row more, unless its id runs already or no row is free.
    fn insert(&mut self, row: Job) -> bool
        ensures value { result ≡ may_start 8 (id_of (job_of row)) (args_in (table_of self.old)) }
        ensures running { (table_of self.new).running ≡ (if result then put id_of (job_of row) (table_of self.old).running else (table_of self.old).running) }
        ensures next { self.new.next ≡ self.old.next }
    {
        !self.jobs.holds(row.args.id) && self.jobs.put(row).is_ok()
    }

    // One job more, of the next start, unless its id runs already or no row is free.
    pub(crate) fn start(&mut self, args: StartCompactionJobArgs) -> bool
        ensures value { result ≡ may_start 8 (args_of args).id (args_in (table_of self.old)) }
        ensures after { table_of self.new ≡ (if result then begun (args_of args) (table_of self.old) else table_of self.old) }
        ensures jobs { args_in (table_of self.new) ≡ (if result then put job_id (args_of args) (args_in (table_of self.old)) else args_in (table_of self.old)) }
    {
        let row = Job {
            args,
            started: self.next,
        };
        let started = self.insert(row);
        if started {
            self.next = self.next.saturating_add(1);
        }
        started
    }

    // Without the job of an id; whether it ran.
    pub(crate) fn end(&mut self, id: Ulid) -> bool
        ensures value { result ≡ holds job_id (number id) (args_in (table_of self.old)) }
        ensures after { table_of self.new ≡ ended (number id) (table_of self.old) }
        ensures jobs { args_in (table_of self.new) ≡ strike job_id (number id) (args_in (table_of self.old)) }
    {
        self.jobs.strike(id)
    }

    pub(crate) fn clear(&mut self)
        ensures { table_of self.new ≡ emptied (table_of self.old) }
    {
        self.jobs.clear();
    }

    // Ends the job of a finish.
    pub(crate) fn settle(&mut self, notice: WorkerMessage)
        ensures after { table_of self.new ≡ settled (Some (notice_of notice)) (table_of self.old) }
        ensures jobs { args_in (table_of self.new) ≡ left_by (Some (notice_of notice)) (args_in (table_of self.old)) }
    {
        if let WorkerMessage::CompactionJobFinished { id, .. } = notice {
            self.end(id);
        }
    }

    // Whether the job of an id runs.
    pub(crate) fn runs(&self, id: Ulid) -> bool
        ensures { result ≡ holds job_id (number id) (args_in (table_of self.now)) }
    {
        self.jobs.holds(id)
    }

    // The job of the least start; of equal ones the first.
    pub(crate) fn oldest(&self) -> Option<Job>
        ensures { option_map job_of result ≡ oldest (table_of self.now).running }
    {
        self.jobs
            .as_slice()
            .iter()
            .min_by_key(|job| job.started)
            .copied()
    }
}
