// Which entries a poll claims: a walk over the record's entries that also stops what was taken from the worker.
ghost use Rattle.std.specs.Prelude.{◌≡◌, suc, ◌-◌, ◌<◌, ◌≤◌, List, ◌∷◌, map, length};
ghost use Rattle.table.specs.Ids.{number as id-number};
ghost use Rattle.table.specs.Tables.{strike};
ghost use Rattle.compactions.specs.Entries.{Entry};
ghost use Rattle.compactions.specs.Meanings.{entry_of};
ghost use Rattle.executors.specs.Executors.{job_id};
ghost use Rattle.stores.specs.Meanings.{draft_of};
ghost use Rattle.worker_steps.specs.States.{row_id, with_jobs};
ghost use Rattle.worker_steps.specs.Claims.{walked};
ghost use Rattle.worker.specs.Claims.{chosen_of, going_on};
ghost use Rattle.worker.specs.Worker.{held_of, settings_of};

use super::CompactionWorker;
use crate::claims::Chosen;
use crate::owning::is_unclaimed;
use compactions::compactor_state::Compaction;
use compactions::refusal::Refusal;
use executors::compactor_executor::CompactionExecutor;
use stores::draft::Draft;
use table::ulid::Ulid;

impl<E: CompactionExecutor> CompactionWorker<E> {
    // Ends the job of an id, and strikes its row.
    pub(super) fn stop_compaction_job(&mut self, id: Ulid)
        ensures held { held_of (E.jobs self.new.executor).list self.new ≡ with_jobs (held_of (E.jobs self.old.executor).list self.old) (strike row_id (id-number id) self.old.table) (strike job_id (id-number id) (E.jobs self.old.executor).list) }
        ensures settings { settings_of E.places.count self.new ≡ settings_of E.places.count self.old }
    {
        self.executor.stop_compaction_job(id);
        self.owned.strike_row(id);
    }

    // One entry of the walk: of those that nobody has taken, one that has a row is stopped, and any
    // other chosen while fewer than `capacity` are.
    fn visit(&mut self, entry: &Compaction, capacity: usize, chosen: &mut Chosen)
        requires small { capacity ≤ 8 }
        requires few { chosen.old.stopped < 32 }
        requires within { length (chosen_of chosen.old) ≤ capacity }
        ensures walk { (es : List Entry) → going_on (chosen_of chosen.new) chosen.new.stopped (walked es (capacity - length (chosen_of chosen.new)) self.new.table (E.jobs self.new.executor).list) ≡ going_on (chosen_of chosen.old) chosen.old.stopped (walked (entry_of entry.now ∷ es) (capacity - length (chosen_of chosen.old)) self.old.table (E.jobs self.old.executor).list) }
        ensures held { held_of (E.jobs self.new.executor).list self.new ≡ with_jobs (held_of (E.jobs self.old.executor).list self.old) self.new.table (E.jobs self.new.executor).list }
        ensures settings { settings_of E.places.count self.new ≡ settings_of E.places.count self.old }
        ensures stopped { chosen.new.stopped ≤ suc chosen.old.stopped }
        ensures within { length (chosen_of chosen.new) ≤ capacity }
    {
        if !is_unclaimed(entry) {
            return;
        }
        if self.owned.has_row(entry.id) {
            self.stop_compaction_job(entry.id);
            chosen.stopped += 1;
        } else if chosen.entries.as_slice().len() < capacity {
            let _ = chosen.entries.push(*entry, Refusal::Count);
        }
    }

    // The entries to claim, in ascending order of their ids.
    pub(super) fn choose(&mut self, draft: &Draft, capacity: usize) -> Chosen
        requires { capacity ≤ 8 }
        ensures chosen { chosen_of result ≡ (walked (draft_of draft.now).entries capacity self.old.table (E.jobs self.old.executor).list).chosen }
        ensures stopped { result.stopped ≡ (walked (draft_of draft.now).entries capacity self.old.table (E.jobs self.old.executor).list).stopped }
        ensures held { held_of (E.jobs self.new.executor).list self.new ≡ with_jobs (held_of (E.jobs self.old.executor).list self.old) (walked (draft_of draft.now).entries capacity self.old.table (E.jobs self.old.executor).list).table (walked (draft_of draft.now).entries capacity self.old.table (E.jobs self.old.executor).list).jobs }
        ensures settings { settings_of E.places.count self.new ≡ settings_of E.places.count self.old }
        ensures few { result.stopped ≤ 32 }
    {
        let mut chosen = Chosen::new();
        for entry in draft.entries() {
            self.visit(entry, capacity, &mut chosen);
        }
        chosen
    }
}
