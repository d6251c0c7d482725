// Notices of the executor: progress, and jobs that ended.
ghost use Rattle.std.specs.Prelude.{◌≡◌, ℕ, ◌≤◌, List, [], if◌then◌else◌, Result};
ghost use Rattle.table.specs.Ids.{number as id-number};
ghost use Rattle.table.specs.Tables.{holds};
ghost use Rattle.compactions.specs.Meanings.{context_of};
ghost use Rattle.compactions.specs.Trees.{Manifest};
ghost use Rattle.executors.specs.Executors.{finished};
ghost use Rattle.executors.specs.Notices.{outcome_of, notice_of};
ghost use Rattle.worker_steps.specs.States.{row_id, state};
ghost use Rattle.worker_steps.specs.Tracking.{Tracked};
ghost use Rattle.worker_steps.specs.Notices.{noticed_by, settling, with_progress, handled};
ghost use Rattle.worker.specs.Notices.{noticed_of, Noticing};
ghost use Rattle.worker.specs.Settling.{settled_of};
ghost use Rattle.worker.specs.Worker.{held_of, settings_of};

use super::CompactionWorker;
use crate::job_progress::Progress;
use crate::notices::NoticeAnswer;
use crate::settling::Settled;
use compactions::compactor_state::CompactionContext;
use compactions::db_state::SortedRun;
use executors::clock::ListClock;
use executors::compactor_executor::{CompactionExecutor, WorkerMessage};
use stores::compactions_store::CompactionsStore;
use table::ulid::Ulid;
use worker_steps::fault::WorkerFault;

impl<E: CompactionExecutor> CompactionWorker<E> {
    // Replaces the context of a job's row; says whether the job has one.
    fn record_progress(&mut self, id: Ulid, ctx: CompactionContext) -> bool
        ensures value { result ≡ holds row_id (id-number id) self.old.table }
        ensures held { held_of (E.jobs self.new.executor).list self.new ≡ (if result then with_progress (id-number id) (context_of ctx) (held_of (E.jobs self.old.executor).list self.old) else held_of (E.jobs self.old.executor).list self.old) }
        ensures settings { settings_of E.places.count self.new ≡ settings_of E.places.count self.old }
    {
        self.owned.set_context(Progress { id, ctx: Some(ctx) })
    }

    // A job that ended: its entry is completed with a run, or released after a failure.
    fn settle_finished<S: CompactionsStore>(
        &mut self,
        store: &mut S,
        clock: &mut ListClock,
        id: Ulid,
        res: Result<SortedRun, u32>,
    ) -> Result<Settled, WorkerFault>
        ensures answer { (ms : List (Result Manifest ℕ)) → settled_of result ≡ (settling (settings_of E.places.count self.old) (id-number id) (outcome_of res) (state (held_of (E.jobs self.old.executor).list self.old) (S.meaning store.old) clock.old ms)).result }
        ensures after { (ms : List (Result Manifest ℕ)) → state (held_of (E.jobs self.new.executor).list self.new) (S.meaning store.new) clock.new ms ≡ (settling (settings_of E.places.count self.old) (id-number id) (outcome_of res) (state (held_of (E.jobs self.old.executor).list self.old) (S.meaning store.old) clock.old ms)).state }
        ensures settings { settings_of E.places.count self.new ≡ settings_of E.places.count self.old }
    {
        match res {
            Ok(run) => self.write_compacted(store, clock, id, &run),
            Err(_) => self.release_claim(store, clock, id),
        }
    }

    // Strikes the row of a job that ended, and settles its entry; where that meets a fault, the id
    // joins the left-behind list. A job without a row is none of the worker's.
    fn handle_finished<S: CompactionsStore>(
        &mut self,
        store: &mut S,
        clock: &mut ListClock,
        id: Ulid,
        res: Result<SortedRun, u32>,
    ) -> Result<Settled, WorkerFault>
        ensures answer { (ms : List (Result Manifest ℕ)) → noticed_by (settled_of result) ≡ (handled (settings_of E.places.count self.old) (finished (id-number id) (outcome_of res)) (state (held_of (E.jobs self.old.executor).list self.old) (S.meaning store.old) clock.old ms)).result }
        ensures after { (ms : List (Result Manifest ℕ)) → state (held_of (E.jobs self.new.executor).list self.new) (S.meaning store.new) clock.new ms ≡ (handled (settings_of E.places.count self.old) (finished (id-number id) (outcome_of res)) (state (held_of (E.jobs self.old.executor).list self.old) (S.meaning store.old) clock.old ms)).state }
        ensures settings { settings_of E.places.count self.new ≡ settings_of E.places.count self.old }
    {
        if !self.owned.strike_row(id) {
            return Ok(Settled::Dropped);
        }
        let settled = self.settle_finished(store, clock, id, res);
        if settled.is_err() {
            self.leave(id);
        }
        settled
    }

    fn handle<S: CompactionsStore>(
        &mut self,
        store: &mut S,
        clock: &mut ListClock,
        message: WorkerMessage,
    ) -> Result<NoticeAnswer, WorkerFault>
        ensures answer { (ms : List (Result Manifest ℕ)) → noticed_of result ≡ (handled (settings_of E.places.count self.old) (notice_of message) (state (held_of (E.jobs self.old.executor).list self.old) (S.meaning store.old) clock.old ms)).result }
        ensures after { (ms : List (Result Manifest ℕ)) → state (held_of (E.jobs self.new.executor).list self.new) (S.meaning store.new) clock.new ms ≡ (handled (settings_of E.places.count self.old) (notice_of message) (state (held_of (E.jobs self.old.executor).list self.old) (S.meaning store.old) clock.old ms)).state }
        ensures settings { settings_of E.places.count self.new ≡ settings_of E.places.count self.old }
    {
        match message {
            WorkerMessage::CompactionJobProgress { id, ctx } => {
                if self.record_progress(id, ctx) {
                    Ok(NoticeAnswer::Progress)
                } else {
                    Ok(NoticeAnswer::Dropped)
                }
            }
            WorkerMessage::CompactionJobFinished { id, result } => {
                let settled = self.handle_finished(store, clock, id, result)?;
                Ok(NoticeAnswer::from(settled))
            }
        }
    }

    // The works of a notice, or the fault that one of them met.
    fn notice_works<S: CompactionsStore>(
        &mut self,
        store: &mut S,
        clock: &mut ListClock,
    ) -> Result<NoticeAnswer, WorkerFault>
        ensures steps { Noticing (settings_of E.places.count self.old) (state (held_of (E.jobs self.old.executor).list self.old) (S.meaning store.old) clock.old) (noticed_of result) (state (held_of (E.jobs self.new.executor).list self.new) (S.meaning store.new) clock.new) }
        ensures settings { settings_of E.places.count self.new ≡ settings_of E.places.count self.old }
    {
        if !self.ensure_loaded(store)? {
            return Ok(NoticeAnswer::NothingYet);
        }
        let Some(message) = self.executor.take() else {
            return Ok(NoticeAnswer::NoNotice);
        };
        self.handle(store, clock, message)
    }
    // Takes one notice of the executor, and does what it asks.
    pub fn notice<S: CompactionsStore>(
        &mut self,
        store: &mut S,
        clock: &mut ListClock,
    ) -> Result<NoticeAnswer, WorkerFault>
        ensures steps { Noticing (settings_of E.places.count self.old) (state (held_of (E.jobs self.old.executor).list self.old) (S.meaning store.old) clock.old) (noticed_of result) (state (held_of (E.jobs self.new.executor).list self.new) (S.meaning store.new) clock.new) }
        ensures settings { settings_of E.places.count self.new ≡ settings_of E.places.count self.old }
        ensures tracked { Tracked self.new.maximum [] self.new.table self.new.left }
        ensures limits { (1 ≤ self.new.limit) × ((self.new.limit ≤ 64) × (self.new.maximum ≤ 8)) }
    {
        let answer = self.notice_works(store, clock);
        // a look at the worker that the works left, for what it keeps
        let _ = self.left_behind();
        answer
    }
}
