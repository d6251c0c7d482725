// The release of a claim: its entry goes back to Scheduled.
ghost use Rattle.std.specs.Prelude.{◌≡◌, ℕ, List, Result};
ghost use Rattle.table.specs.Ids.{number as id-number};
ghost use Rattle.compactions.specs.Meanings.{entry_of};
ghost use Rattle.compactions.specs.Trees.{Manifest};
ghost use Rattle.worker_steps.specs.States.{state};
ghost use Rattle.worker_steps.specs.Releases.{released_as, releasing};
ghost use Rattle.worker.specs.EntryWorks.{the_release};
ghost use Rattle.worker.specs.Settling.{settled_of};
ghost use Rattle.worker.specs.Worker.{held_of, settings_of};

use super::CompactionWorker;
use crate::entry_work::EntryWork;
use crate::settling::Settled;
use compactions::compactor_state::{Compaction, CompactionStatus};
use executors::clock::ListClock;
use executors::compactor_executor::CompactionExecutor;
use stores::compactions_store::CompactionsStore;
use table::ulid::Ulid;
use worker_steps::fault::{Work, WorkerFault};

struct Release;

fn released(entry: Compaction) -> Compaction
    ensures { entry_of result ≡ released_as (entry_of entry) }
{
    let mut released = entry;
    released.status = CompactionStatus::Scheduled;
    released.worker = None;
    released
}

impl EntryWork for Release {
    ghost steps = { λ _. the_release };

    fn work(&self) -> Work {
        Work::Release
    }

    fn changed(&self, entry: Compaction, _number: u32, _clock: &mut ListClock) -> Compaction {
        released(entry)
    }
}

impl<E: CompactionExecutor> CompactionWorker<E> {
    pub(super) fn release_claim<S: CompactionsStore>(
        &mut self,
        store: &mut S,
        clock: &mut ListClock,
        id: Ulid,
    ) -> Result<Settled, WorkerFault>
        ensures answer { (ms : List (Result Manifest ℕ)) → settled_of result ≡ (releasing (settings_of E.places.count self.old) (id-number id) (state (held_of (E.jobs self.old.executor).list self.old) (S.meaning store.old) clock.old ms)).result }
        ensures after { (ms : List (Result Manifest ℕ)) → state (held_of (E.jobs self.new.executor).list self.new) (S.meaning store.new) clock.new ms ≡ (releasing (settings_of E.places.count self.old) (id-number id) (state (held_of (E.jobs self.old.executor).list self.old) (S.meaning store.old) clock.old ms)).state }
        ensures settings { settings_of E.places.count self.new ≡ settings_of E.places.count self.old }
    {
        self.work_on_entry(store, clock, &Release, id)
    }
}
