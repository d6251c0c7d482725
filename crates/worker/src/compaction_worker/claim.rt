// A claim: attempts to make the chosen entries Running under the worker's number.
ghost use Rattle.std.specs.Prelude.{◌≡◌, ℕ, ◌+◌, ◌-◌, ◌*◌, ◌≤◌, true, List, [], ◌∷◌, map, length, Result};
ghost use Rattle.std.specs.List.{AllByRecursion};
ghost use Rattle.table.specs.Ids.{number as id-number};
ghost use Rattle.table.specs.Tables.{holds, put};
ghost use Rattle.compactions.specs.Meanings.{entry_of};
ghost use Rattle.compactions.specs.Trees.{Manifest};
ghost use Rattle.stores.specs.Records.{entry_id};
ghost use Rattle.stores.specs.Meanings.{draft_of};
ghost use Rattle.worker_steps.specs.States.{self_id, with_left, state};
ghost use Rattle.worker_steps.specs.Tracking.{Tracked};
ghost use Rattle.worker_steps.specs.Claims.{claimed_as, claim_draft, joined, claim_attempt, claiming};
ghost use Rattle.worker.specs.Claims.{waiting};
ghost use Rattle.worker.specs.Polls.{counts_of, turn_of, turn_end, counted_turn, claim_of, claim_end, counted_claim, PendingTurn, PendingClaim};
ghost use Rattle.worker.specs.Worker.{held_of, settings_of};

use super::CompactionWorker;
use crate::claims::{Chosen, Claims};
use crate::polls::{ClaimTurn, LandedClaims, PollCounts};
use compactions::compactor_state::{Compaction, CompactionStatus, WorkerSpec};
use executors::clock::ListClock;
use executors::compactor_executor::CompactionExecutor;
use stores::compactions_store::{CompactionsStore, Updated};
use stores::draft::Draft;
use table::ulid::Ulid;
use worker_steps::fault::{During, Told, Work, WorkerFault};

fn claimed_by(entry: &Compaction, worker: WorkerSpec) -> Compaction
    ensures { entry_of result ≡ claimed_as worker.worker_id worker.last_heartbeat_ms (entry_of entry.now) }
{
    let mut claimed = *entry;
    claimed.status = CompactionStatus::Running;
    claimed.worker = Some(worker);
    claimed
}

// Each chosen entry, Running under the worker, in the place of the one with its id.
fn mark_running(draft: &mut Draft, chosen: &[Compaction], worker: WorkerSpec)
    requires { AllByRecursion (λ c. holds entry_id c.id (draft_of draft.old).entries ≡ true) (map entry_of chosen.now) }
    ensures { draft_of draft.new ≡ claim_draft worker.worker_id worker.last_heartbeat_ms (map entry_of chosen.now) (draft_of draft.old) }
{
    for entry in chosen {
        let _ = draft.insert(claimed_by(entry, worker));
    }
}

impl<E: CompactionExecutor> CompactionWorker<E> {
    // A pending id joins the left-behind list.
    pub(super) fn leave(&mut self, id: Ulid)
        requires { Tracked self.old.maximum (id-number id ∷ []) self.old.table self.old.left }
        ensures held { held_of (E.jobs self.new.executor).list self.new ≡ with_left (held_of (E.jobs self.old.executor).list self.old) (put self_id (id-number id) self.old.left) }
        ensures settings { settings_of E.places.count self.new ≡ settings_of E.places.count self.old }
    {
        self.owned.leave(id);
    }

    // Each claim that waits joins the left-behind list.
    pub(super) fn leave_all(&mut self, mut claims: Claims)
        requires { Tracked self.old.maximum (map entry_id (waiting claims)) self.old.table self.old.left }
        ensures held { held_of (E.jobs self.new.executor).list self.new ≡ with_left (held_of (E.jobs self.old.executor).list self.old) (joined (waiting claims) self.old.left) }
        ensures settings { settings_of E.places.count self.new ≡ settings_of E.places.count self.old }
    {
        while let Some(claim) = claims.take() {
            self.leave(claim.spend());
        }
        claims.finish();
    }

    // One attempt to claim. Where the store faults the update, the claims may stand all the same, so
    // the chosen join the left-behind list.
    fn attempt_claim<S: CompactionsStore>(
        &mut self,
        store: &mut S,
        clock: &mut ListClock,
        capacity: usize,
        attempt: u32,
        counts: &mut PollCounts,
    ) -> Result<ClaimTurn, WorkerFault>
        requires small { capacity ≤ 8 }
        requires tracked { Tracked self.old.maximum [] self.old.table self.old.left }
        requires room { capacity + length self.old.table ≤ self.old.maximum }
        requires few { (counts.old.stopped ≤ 32 * attempt) × (attempt ≤ 64) }
        requires fresh { (counts.old.claimed ≡ 0) × (counts.old.left ≡ 0) }
        ensures answer { (ms : List (Result Manifest ℕ)) → turn_of attempt result ≡ turn_end (claim_attempt (settings_of E.places.count self.old) capacity attempt (state (held_of (E.jobs self.old.executor).list self.old) (S.meaning store.old) clock.old ms)).result }
        ensures counts { (ms : List (Result Manifest ℕ)) → counts_of counts.new ≡ counted_turn (counts_of counts.old) (claim_attempt (settings_of E.places.count self.old) capacity attempt (state (held_of (E.jobs self.old.executor).list self.old) (S.meaning store.old) clock.old ms)).result (claim_attempt (settings_of E.places.count self.old) capacity attempt (state (held_of (E.jobs self.old.executor).list self.old) (S.meaning store.old) clock.old ms)).stopped }
        ensures after { (ms : List (Result Manifest ℕ)) → state (held_of (E.jobs self.new.executor).list self.new) (S.meaning store.new) clock.new ms ≡ (claim_attempt (settings_of E.places.count self.old) capacity attempt (state (held_of (E.jobs self.old.executor).list self.old) (S.meaning store.old) clock.old ms)).state }
        ensures settings { settings_of E.places.count self.new ≡ settings_of E.places.count self.old }
        ensures pending { PendingTurn self.new.maximum (held_of (E.jobs self.new.executor).list self.new) result }
        ensures room { capacity + length self.new.table ≤ self.new.maximum }
        ensures few { counts.new.stopped ≤ 32 * (attempt + 1) }
    {
        let during = During {
            work: Work::Claim,
            id: None,
            attempt,
        };
        let mut draft = self.read_for(store, during)?;
        let Chosen { entries, stopped } = self.choose(&draft, capacity);
        counts.stopped += stopped;
        if entries.as_slice().is_empty() {
            return Ok(ClaimTurn::NoneChosen);
        }
        let worker = WorkerSpec {
            worker_id: self.number,
            last_heartbeat_ms: clock.stamp(),
        };
        mark_running(&mut draft, entries.as_slice(), worker);
        let count = entries.as_slice().len() as u32;
        match store.update(draft) {
            Ok(Updated::Landed) => {
                counts.claimed = count;
                Ok(ClaimTurn::Landed(Claims::of(entries)))
            }
            Ok(Updated::Conflict) => Ok(ClaimTurn::Conflict),
            Err(fault) => {
                counts.claimed = count;
                counts.left = count;
                self.leave_all(Claims::of(entries));
                Err(WorkerFault::Store(Told { fault, during }))
            }
        }
    }

    // The claim is tried until an update lands or the limit is reached. Its capacity is taken once.
    pub(super) fn claim<S: CompactionsStore>(
        &mut self,
        store: &mut S,
        clock: &mut ListClock,
        counts: &mut PollCounts,
    ) -> Result<Option<LandedClaims>, WorkerFault>
        requires { (counts.old.claimed ≡ 0) × ((counts.old.left ≡ 0) × (counts.old.stopped ≡ 0)) }
        ensures answer { (ms : List (Result Manifest ℕ)) → claim_of result ≡ claim_end (claiming (settings_of E.places.count self.old) (self.old.maximum - length self.old.table) (state (held_of (E.jobs self.old.executor).list self.old) (S.meaning store.old) clock.old ms)).result }
        ensures counts { (ms : List (Result Manifest ℕ)) → counts_of counts.new ≡ counted_claim (counts_of counts.old) (claiming (settings_of E.places.count self.old) (self.old.maximum - length self.old.table) (state (held_of (E.jobs self.old.executor).list self.old) (S.meaning store.old) clock.old ms)).result (claiming (settings_of E.places.count self.old) (self.old.maximum - length self.old.table) (state (held_of (E.jobs self.old.executor).list self.old) (S.meaning store.old) clock.old ms)).stopped }
        ensures after { (ms : List (Result Manifest ℕ)) → state (held_of (E.jobs self.new.executor).list self.new) (S.meaning store.new) clock.new ms ≡ (claiming (settings_of E.places.count self.old) (self.old.maximum - length self.old.table) (state (held_of (E.jobs self.old.executor).list self.old) (S.meaning store.old) clock.old ms)).state }
        ensures settings { settings_of E.places.count self.new ≡ settings_of E.places.count self.old }
        ensures pending { PendingClaim self.new.maximum (held_of (E.jobs self.new.executor).list self.new) result }
    {
        let capacity = self.owned.capacity();
        // A loop whose `break` yields the landed claims, as docs/DECISIONS.md has it, so it counts attempts.
        let mut attempt = 1;
        let claims = 'attempts: loop {
            match self.attempt_claim(store, clock, capacity, attempt, counts)? {
                ClaimTurn::NoneChosen => return Ok(None),
                ClaimTurn::Landed(claims) => break 'attempts claims,
                ClaimTurn::Conflict => {}
            }
            if attempt >= self.limit {
                return Err(WorkerFault::NotLanded(During {
                    work: Work::Claim,
                    id: None,
                    attempt,
                }));
            }
            attempt += 1;
        };
        Ok(Some(LandedClaims { claims, attempt }))
    }
}
