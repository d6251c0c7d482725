// The rows of the job table: the jobs that the worker runs, each with how far it has come.
use compactions::compactor_state::CompactionContext;
use table::row::Row;
use table::ulid::Ulid;

// A job that runs; its context, if it had one when it started or has told of one since.
#[derive(Clone, Copy)]
pub struct Progress {
    pub id: Ulid,
    pub ctx: Option<CompactionContext>,
}

impl Row for Progress {
    ghost named = { λ p. p.id };

    fn id(&self) -> Ulid {
        self.id
    }
}
