// A poll: the first look, the claim, one manifest, and what becomes of the claimed entries.
ghost use Rattle.std.specs.Prelude.{◌≡◌, ℕ, ◌≤◌, [], map, length};
ghost use Rattle.executors.specs.Manifests.{given, behind};
ghost use Rattle.stores.specs.Records.{entry_id};
ghost use Rattle.worker_steps.specs.States.{state};
ghost use Rattle.worker_steps.specs.Tracking.{Tracked};
ghost use Rattle.worker_steps.specs.Polls.{dispatch_given, poll as poll-steps};
ghost use Rattle.worker.specs.Claims.{waiting};
ghost use Rattle.worker.specs.Dispatches.{dispatch_of};
ghost use Rattle.worker.specs.Polls.{counts_of, poll_answer_by, poll_answer_of, ended_of};
ghost use Rattle.worker.specs.Worker.{held_of, settings_of};

use super::CompactionWorker;
use crate::polls::{LandedClaims, PollAnswer, PollCounts, PollEnd};
use executors::clock::ListClock;
use executors::compactor_executor::CompactionExecutor;
use executors::manifest_source::ListManifests;
use stores::compactions_store::CompactionsStore;
use worker_steps::fault::{During, Work, WorkerFault};

impl<E: CompactionExecutor> CompactionWorker<E> {
    // Claims that landed, against a manifest that is read after them; its fault leaves them all behind.
    fn after_claim<S: CompactionsStore>(
        &mut self,
        store: &mut S,
        clock: &mut ListClock,
        manifests: &mut ListManifests,
        landed: LandedClaims,
        counts: &mut PollCounts,
    ) -> Result<(), WorkerFault>
        requires pending { Tracked self.old.maximum (map entry_id (waiting landed.claims)) self.old.table self.old.left }
        requires fresh { (counts.old.started ≡ 0) × ((counts.old.let_go ≡ 0) × (counts.old.left ≡ 0)) }
        ensures answer { dispatch_of result (counts_of counts.new) ≡ (dispatch_given (settings_of E.places.count self.old) landed.attempt (given manifests.old) (waiting landed.claims) (state (held_of (E.jobs self.old.executor).list self.old) (S.meaning store.old) clock.old (behind manifests.old))).result }
        ensures after { state (held_of (E.jobs self.new.executor).list self.new) (S.meaning store.new) clock.new manifests.new ≡ (dispatch_given (settings_of E.places.count self.old) landed.attempt (given manifests.old) (waiting landed.claims) (state (held_of (E.jobs self.old.executor).list self.old) (S.meaning store.old) clock.old (behind manifests.old))).state }
        ensures claimed { (counts.new.claimed ≡ counts.old.claimed) × (counts.new.stopped ≡ counts.old.stopped) }
        ensures settings { settings_of E.places.count self.new ≡ settings_of E.places.count self.old }
    {
        let LandedClaims { claims, attempt } = landed;
        match manifests.read() {
            Ok(manifest) => self.dispatch(store, clock, &manifest, claims, counts),
            Err(cause) => {
                counts.left = claims.count();
                self.leave_all(claims);
                let during = During {
                    work: Work::Claim,
                    id: None,
                    attempt,
                };
                Err(WorkerFault::Manifest(cause, during))
            }
        }
    }

    // The works of a poll, or the fault that one of them met.
    fn poll_works<S: CompactionsStore>(
        &mut self,
        store: &mut S,
        clock: &mut ListClock,
        manifests: &mut ListManifests,
        counts: &mut PollCounts,
    ) -> Result<PollEnd, WorkerFault>
        requires { counts_of counts.old ≡ record { claimed = 0; started = 0; let_go = 0; left = 0; stopped = 0 } }
        ensures answer { poll_answer_by (ended_of result) (counts_of counts.new) ≡ (poll-steps (settings_of E.places.count self.old) (state (held_of (E.jobs self.old.executor).list self.old) (S.meaning store.old) clock.old manifests.old)).result }
        ensures after { state (held_of (E.jobs self.new.executor).list self.new) (S.meaning store.new) clock.new manifests.new ≡ (poll-steps (settings_of E.places.count self.old) (state (held_of (E.jobs self.old.executor).list self.old) (S.meaning store.old) clock.old manifests.old)).state }
        ensures settings { settings_of E.places.count self.new ≡ settings_of E.places.count self.old }
    {
        if !self.ensure_loaded(store)? {
            return Ok(PollEnd::NothingYet);
        }
        let Some(landed) = self.claim(store, clock, counts)? else {
            return Ok(PollEnd::Done);
        };
        self.after_claim(store, clock, manifests, landed, counts)?;
        Ok(PollEnd::Done)
    }

    // Claims as many entries as there is capacity for, and starts or releases each.
    pub fn poll_and_claim<S: CompactionsStore>(
        &mut self,
        store: &mut S,
        clock: &mut ListClock,
        manifests: &mut ListManifests,
    ) -> PollAnswer
        ensures answer { poll_answer_of result ≡ (poll-steps (settings_of E.places.count self.old) (state (held_of (E.jobs self.old.executor).list self.old) (S.meaning store.old) clock.old manifests.old)).result }
        ensures after { state (held_of (E.jobs self.new.executor).list self.new) (S.meaning store.new) clock.new manifests.new ≡ (poll-steps (settings_of E.places.count self.old) (state (held_of (E.jobs self.old.executor).list self.old) (S.meaning store.old) clock.old manifests.old)).state }
        ensures settings { settings_of E.places.count self.new ≡ settings_of E.places.count self.old }
        ensures tracked { Tracked self.new.maximum [] self.new.table self.new.left }
        ensures limits { (1 ≤ self.new.limit) × ((self.new.limit ≤ 64) × (self.new.maximum ≤ 8)) }
    {
        let mut counts = PollCounts::default();
        let end = self.poll_works(store, clock, manifests, &mut counts);
        // a look at the worker that the works left, for what it keeps
        let _ = self.left_behind();
        PollAnswer { end, counts }
    }
}
