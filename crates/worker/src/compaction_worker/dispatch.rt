// What becomes of claimed entries: each is started, or released, or left behind.
ghost use Rattle.std.specs.Prelude.{◌≡◌, ℕ, ◌+◌, ◌≤◌, List, [], ◌∷◌, map, length, if◌then◌else◌, Some, None, Result};
ghost use Rattle.compactions.specs.Meanings.{entry_of, manifest_of};
ghost use Rattle.compactions.specs.Trees.{Manifest as ManifestMeaning};
ghost use Rattle.argument_check.specs.Check.{job_args};
ghost use Rattle.stores.specs.Records.{entry_id};
ghost use Rattle.worker_steps.specs.States.{state};
ghost use Rattle.worker_steps.specs.Tracking.{Tracked};
ghost use Rattle.worker_steps.specs.Polls.{may_run, with_started, dispatching};
ghost use Rattle.worker.specs.Claims.{waiting};
ghost use Rattle.worker.specs.Dispatches.{given_back, SettleStep, dispatch_of};
ghost use Rattle.worker.specs.Polls.{counts_of};
ghost use Rattle.worker.specs.Worker.{held_of, settings_of};

use super::CompactionWorker;
use crate::claims::{Claim, Claims};
use crate::dispatch::Unreleased;
use crate::job_progress::Progress;
use crate::polls::PollCounts;
use argument_check::build_job_args;
use compactions::manifest::Manifest;
use executors::clock::ListClock;
use executors::compactor_executor::CompactionExecutor;
use stores::compactions_store::CompactionsStore;
use worker_steps::fault::WorkerFault;

impl<E: CompactionExecutor> CompactionWorker<E> {
    // Starts a claimed entry and adds its row, if it passes the argument check and the executor says
    // yes; else the claim comes back.
    fn start(&mut self, claim: Claim, manifest: &Manifest) -> Result<(), Claim>
        requires { Tracked self.old.maximum ((entry_of claim.entry).id ∷ []) self.old.table self.old.left }
        ensures answer { given_back result ≡ (if may_run E.places.count (job_args (entry_of claim.entry) (manifest_of manifest.now)) (E.jobs self.old.executor).list then None else Some (entry_of claim.entry)) }
        ensures held { held_of (E.jobs self.new.executor).list self.new ≡ (if may_run E.places.count (job_args (entry_of claim.entry) (manifest_of manifest.now)) (E.jobs self.old.executor).list then with_started (entry_of claim.entry) (job_args (entry_of claim.entry) (manifest_of manifest.now)) (held_of (E.jobs self.old.executor).list self.old) else held_of (E.jobs self.old.executor).list self.old) }
        ensures settings { settings_of E.places.count self.new ≡ settings_of E.places.count self.old }
    {
        let entry = *claim.entry();
        let Ok(args) = build_job_args(&entry, manifest) else {
            return Err(claim);
        };
        if !self.executor.start_compaction_job(args) {
            return Err(claim);
        }
        self.owned.add_row(Progress {
            id: claim.spend(),
            ctx: entry.ctx,
        });
        Ok(())
    }

    // One claimed entry: started, or released; where its release meets a fault, the claim comes back.
    fn settle<S: CompactionsStore>(
        &mut self,
        store: &mut S,
        clock: &mut ListClock,
        manifest: &Manifest,
        claim: Claim,
        counts: &mut PollCounts,
    ) -> Result<(), Unreleased>
        requires pending { Tracked self.old.maximum ((entry_of claim.entry).id ∷ []) self.old.table self.old.left }
        requires few { counts.old.started + counts.old.let_go ≤ 8 }
        ensures step { SettleStep (settings_of E.places.count self.old) (manifest_of manifest.now) (entry_of claim.entry) result (held_of (E.jobs self.old.executor).list self.old) (S.meaning store.old) clock.old (counts_of counts.old) (held_of (E.jobs self.new.executor).list self.new) (S.meaning store.new) clock.new (counts_of counts.new) }
        ensures settings { settings_of E.places.count self.new ≡ settings_of E.places.count self.old }
    {
        // no `?` and no map_err: each arm spends the claim, or hands it back
        match self.start(claim, manifest) {
            Ok(()) => {
                counts.started += 1;
                Ok(())
            }
            Err(claim) => match self.release_claim(store, clock, claim.entry().id) {
                Ok(_) => {
                    claim.spend();
                    counts.let_go += 1;
                    Ok(())
                }
                Err(fault) => Err(Unreleased { claim, fault }),
            },
        }
    }

    // Each claim, in ascending order of the ids, is started or released. Where a release meets a
    // fault, its claim and all later ones join the left-behind list.
    pub(super) fn dispatch<S: CompactionsStore>(
        &mut self,
        store: &mut S,
        clock: &mut ListClock,
        manifest: &Manifest,
        mut claims: Claims,
        counts: &mut PollCounts,
    ) -> Result<(), WorkerFault>
        requires pending { Tracked self.old.maximum (map entry_id (waiting claims)) self.old.table self.old.left }
        requires fresh { (counts.old.started ≡ 0) × ((counts.old.let_go ≡ 0) × (counts.old.left ≡ 0)) }
        ensures answer { (ms : List (Result ManifestMeaning ℕ)) → dispatch_of result (counts_of counts.new) ≡ (dispatching (settings_of E.places.count self.old) (manifest_of manifest.now) (waiting claims) (state (held_of (E.jobs self.old.executor).list self.old) (S.meaning store.old) clock.old ms)).result }
        ensures after { (ms : List (Result ManifestMeaning ℕ)) → state (held_of (E.jobs self.new.executor).list self.new) (S.meaning store.new) clock.new ms ≡ (dispatching (settings_of E.places.count self.old) (manifest_of manifest.now) (waiting claims) (state (held_of (E.jobs self.old.executor).list self.old) (S.meaning store.old) clock.old ms)).state }
        ensures claimed { (counts.new.claimed ≡ counts.old.claimed) × (counts.new.stopped ≡ counts.old.stopped) }
        ensures settings { settings_of E.places.count self.new ≡ settings_of E.places.count self.old }
    {
        while let Some(claim) = claims.take() {
            if let Err(unreleased) = self.settle(store, clock, manifest, claim, counts) {
                let Unreleased { claim, fault } = unreleased;
                counts.left = claims.count() + 1;
                self.leave(claim.spend());
                self.leave_all(claims);
                return Err(fault);
            }
        }
        claims.finish();
        Ok(())
    }
}
