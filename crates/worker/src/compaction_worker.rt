// A compaction worker: its number and limits, the jobs that it owns, and its executor, which it keeps.
//
// Reworked from src/compaction_worker.rs of slatedb 0.16.0 (Apache-2.0, see NOTICE); changed: no
// tasks and tickers, a limit of attempts in place of endless retries, a list of the claims that a
// fault left behind, and calls that answer what they did.
//
// The store and the clock are passed beside one another: a struct that lends both would have to be
// made anew for each call, and each clause would still name the store's meaning and the clock. A poll's
// counts go beside them, since they hold after a fault too, when a Result has no place for them. That the
// settings stay is a clause of its own: with what is held it would be one equality of the whole worker,
// and what an executor is after a call is not said by the jobs that it runs.
use crate::owned_jobs::OwnedJobs;
use std::marker::Model;

mod choice;
mod claim;
mod completion;
mod dispatch;
mod entry_work;
mod making;
mod notice;
mod poll;
mod reads;
mod release;

#[derive(Drop)]
pub struct CompactionWorker<E> {
    number: u32,
    limit: u32,
    loaded: bool,
    owned: OwnedJobs,
    executor: E,
}

impl<E> Model for CompactionWorker<E> {
    ghost use Rattle.std.specs.Prelude.{◌≤◌, []};
    ghost use Rattle.worker_steps.specs.Tracking.{Tracked};
    ghost use Rattle.worker.specs.Worker.{Worker};

    ghost Value = { Worker E };

    ghost view = { λ w. record { number = w.number; maximum = w.owned.maximum; limit = w.limit; loaded = w.loaded; table = w.owned.table; left = w.owned.left; executor = w.executor } };

    ghost invariant = { λ w. (1 ≤ w.limit) × ((w.limit ≤ 64) × ((w.owned.maximum ≤ 8) × Tracked w.owned.maximum [] w.owned.table w.owned.left)) };
}
