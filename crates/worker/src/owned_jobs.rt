// The jobs that the worker owns: those that it runs, in the job table, and the left-behind list, ids
// whose claim may still stand in the record though no job runs for them. Both ascend by id.
use crate::job_progress::Progress;
use std::marker::Model;
use table::fixed_table::FixedTable;
use table::ulid::Ulid;

mod methods;

#[derive(Drop)]
pub struct OwnedJobs {
    maximum: usize,
    job_progress: FixedTable<Progress, 8>,
    left_behind: FixedTable<Ulid, 40>,
}

impl Model for OwnedJobs {
    ghost use Rattle.std.specs.Prelude.{◌≡◌, true};
    ghost use Rattle.worker.specs.Owned.{Owned};
    ghost use Rattle.worker.specs.Meanings.{table_of, list_of};
    ghost use Rattle.worker.specs.Tracks.{tracks};

    ghost Value = { Owned };

    ghost view = { λ o. record { maximum = o.maximum; table = table_of o.job_progress; left = list_of o.left_behind } };

    ghost invariant = { λ o. tracks o.maximum (table_of o.job_progress) (list_of o.left_behind) ≡ true };
}
