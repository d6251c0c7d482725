// The running jobs of an executor, in one ordered table of at most eight.
use compactions::job_args::StartCompactionJobArgs;
use table::fixed_table::FixedTable;
use table::row::Row;
use table::ulid::Ulid;

mod methods;

// A job with the number of its start.
#[derive(Clone, Copy)]
pub struct Job {
    pub args: StartCompactionJobArgs,
    pub started: u64,
}

impl Row for Job {
    ghost named = { λ j. j.args.id };

    fn id(&self) -> Ulid {
        self.args.id
    }
}

// The jobs, ascending by their ids; `next` is the number of the next start.
#[derive(Drop)]
pub struct JobTable {
    jobs: FixedTable<Job, 8>,
    next: u64,
}
