// The completion of a job: its entry becomes Compacted with the outputs of its run.
ghost use Rattle.std.specs.Prelude.{◌≡◌, ℕ, List, map, Result};
ghost use Rattle.table.specs.Ids.{number as id-number};
ghost use Rattle.table.specs.Counted.{items_of};
ghost use Rattle.compactions.specs.Meanings.{entry_of, run_of, sst_of};
ghost use Rattle.compactions.specs.Trees.{Manifest};
ghost use Rattle.worker_steps.specs.States.{state};
ghost use Rattle.worker_steps.specs.Completions.{ssts, completed_as, completing};
ghost use Rattle.worker.specs.EntryWorks.{the_completion};
ghost use Rattle.worker.specs.Settling.{settled_of};
ghost use Rattle.worker.specs.Worker.{held_of, settings_of};

use super::CompactionWorker;
use crate::entry_work::EntryWork;
use crate::settling::Settled;
use compactions::compactor_state::{Compaction, CompactionStatus, WorkerSpec};
use compactions::db_state::{NO_SST, SortedRun, SsTableId};
use compactions::refusal::Refusal;
use compactions::rows::Rows;
use executors::clock::ListClock;
use executors::compactor_executor::CompactionExecutor;
use stores::compactions_store::CompactionsStore;
use table::ulid::Ulid;
use worker_steps::fault::{Work, WorkerFault};

#[derive(Drop)]
struct Completion {
    outputs: Rows<SsTableId, 8>,
}

// The SSTs that the views of a run show.
fn ssts_of(run: &SortedRun) -> Rows<SsTableId, 8>
    ensures { map sst_of (items_of result) ≡ ssts (run_of run.now) }
{
    let mut ssts = Rows::new(NO_SST);
    for view in run.sst_views.as_slice() {
        let _ = ssts.push(view.sst, Refusal::Count);
    }
    ssts
}

fn completed(entry: Compaction, outputs: Rows<SsTableId, 8>, worker: WorkerSpec) -> Compaction
    ensures { entry_of result ≡ completed_as worker.worker_id worker.last_heartbeat_ms (map sst_of (items_of outputs)) (entry_of entry) }
{
    let mut completed = entry;
    completed.status = CompactionStatus::Compacted;
    completed.output_ssts = outputs;
    completed.worker = Some(worker);
    completed.ctx = None;
    completed
}

impl EntryWork for Completion {
    ghost steps = { λ c. the_completion (map sst_of (items_of c.outputs)) };

    fn work(&self) -> Work {
        Work::Completion
    }

    fn changed(&self, entry: Compaction, number: u32, clock: &mut ListClock) -> Compaction {
        let worker = WorkerSpec {
            worker_id: number,
            last_heartbeat_ms: clock.stamp(),
        };
        completed(entry, self.outputs, worker)
    }
}

impl<E: CompactionExecutor> CompactionWorker<E> {
    pub(super) fn write_compacted<S: CompactionsStore>(
        &mut self,
        store: &mut S,
        clock: &mut ListClock,
        id: Ulid,
        run: &SortedRun,
    ) -> Result<Settled, WorkerFault>
        ensures answer { (ms : List (Result Manifest ℕ)) → settled_of result ≡ (completing (settings_of E.places.count self.old) (id-number id) (ssts (run_of run.now)) (state (held_of (E.jobs self.old.executor).list self.old) (S.meaning store.old) clock.old ms)).result }
        ensures after { (ms : List (Result Manifest ℕ)) → state (held_of (E.jobs self.new.executor).list self.new) (S.meaning store.new) clock.new ms ≡ (completing (settings_of E.places.count self.old) (id-number id) (ssts (run_of run.now)) (state (held_of (E.jobs self.old.executor).list self.old) (S.meaning store.old) clock.old ms)).state }
        ensures settings { settings_of E.places.count self.new ≡ settings_of E.places.count self.old }
    {
        let completion = Completion {
            outputs: ssts_of(run),
        };
        self.work_on_entry(store, clock, &completion, id)
    }
}
