// Works on one entry: attempts until one of them ends the work.
ghost use Rattle.std.specs.Prelude.{◌≡◌, ℕ, List, Result};
ghost use Rattle.table.specs.Ids.{number as id-number};
ghost use Rattle.compactions.specs.Trees.{Manifest};
ghost use Rattle.worker_steps.specs.States.{state};
ghost use Rattle.worker.specs.EntryWorks.{entry_attempt, entry_work};
ghost use Rattle.worker.specs.Settling.{settle_turn_of, settled_of};
ghost use Rattle.worker.specs.Worker.{held_of, settings_of};

use super::CompactionWorker;
use crate::entry_work::EntryWork;
use crate::settling::{Settled, hand_in, own_entry};
use executors::clock::ListClock;
use executors::compactor_executor::CompactionExecutor;
use stores::compactions_store::CompactionsStore;
use table::ulid::Ulid;
use worker_steps::fault::{During, WorkerFault};

impl<E: CompactionExecutor> CompactionWorker<E> {
    // One attempt; it gives nothing where its update met a conflict.
    fn attempt_on_entry<S: CompactionsStore, W: EntryWork>(
        &mut self,
        store: &mut S,
        clock: &mut ListClock,
        work: &W,
        id: Ulid,
        attempt: u32,
    ) -> Result<Option<Settled>, WorkerFault>
        ensures answer { (ms : List (Result Manifest ℕ)) → settle_turn_of result ≡ (entry_attempt (W.steps work.now) (settings_of E.places.count self.old) (id-number id) attempt (state (held_of (E.jobs self.old.executor).list self.old) (S.meaning store.old) clock.old ms)).result }
        ensures after { (ms : List (Result Manifest ℕ)) → state (held_of (E.jobs self.new.executor).list self.new) (S.meaning store.new) clock.new ms ≡ (entry_attempt (W.steps work.now) (settings_of E.places.count self.old) (id-number id) attempt (state (held_of (E.jobs self.old.executor).list self.old) (S.meaning store.old) clock.old ms)).state }
        ensures settings { settings_of E.places.count self.new ≡ settings_of E.places.count self.old }
    {
        let during = During {
            work: work.work(),
            id: Some(id),
            attempt,
        };
        let draft = self.read_for(store, during)?;
        let Some(existing) = own_entry(&draft, id, self.number) else {
            return Ok(Some(Settled::Dropped));
        };
        let changed = work.changed(existing, self.number, clock);
        hand_in(store, draft, changed, during)
    }

    // Tried until an update lands, the entry is not the worker's, or the limit is reached.
    pub(super) fn work_on_entry<S: CompactionsStore, W: EntryWork>(
        &mut self,
        store: &mut S,
        clock: &mut ListClock,
        work: &W,
        id: Ulid,
    ) -> Result<Settled, WorkerFault>
        ensures answer { (ms : List (Result Manifest ℕ)) → settled_of result ≡ (entry_work (W.steps work.now) (settings_of E.places.count self.old) (id-number id) (state (held_of (E.jobs self.old.executor).list self.old) (S.meaning store.old) clock.old ms)).result }
        ensures after { (ms : List (Result Manifest ℕ)) → state (held_of (E.jobs self.new.executor).list self.new) (S.meaning store.new) clock.new ms ≡ (entry_work (W.steps work.now) (settings_of E.places.count self.old) (id-number id) (state (held_of (E.jobs self.old.executor).list self.old) (S.meaning store.old) clock.old ms)).state }
        ensures settings { settings_of E.places.count self.new ≡ settings_of E.places.count self.old }
    {
        let limit = self.limit;
        for attempt in 1..=limit {
            if let Some(settled) = self.attempt_on_entry(store, clock, work, id, attempt)? {
                return Ok(settled);
            }
        }
        Err(WorkerFault::NotLanded(During {
            work: work.work(),
            id: Some(id),
            attempt: limit,
        }))
    }
}
