ghost use Rattle.std.specs.Prelude.{◌≡◌, ◌-◌, ◌≤◌, true, [], ◌∷◌, map, length, if◌then◌else◌};
ghost use Rattle.table.specs.Ids.{number as id-number};
ghost use Rattle.table.specs.Tables.{holds, put, strike};
ghost use Rattle.stores.specs.Meanings.{draft_of};
ghost use Rattle.worker_steps.specs.States.{row_id, self_id};
ghost use Rattle.worker_steps.specs.Tracking.{Tracked};
ghost use Rattle.worker_steps.specs.Owning.{still_left};
ghost use Rattle.worker.specs.Meanings.{row_of};
ghost use Rattle.worker.specs.Owned.{with_table, with_list};

use super::OwnedJobs;
use crate::job_progress::Progress;
use crate::owning::runs_under;
use stores::draft::Draft;
use table::fixed_table::FixedTable;
use table::ulid::Ulid;

impl OwnedJobs {
    pub(crate) fn new(maximum: usize) -> OwnedJobs
        requires { maximum ≤ 8 }
        ensures value { result ≡ record { maximum = maximum; table = []; left = [] } }
        ensures tracked { Tracked result.maximum [] result.table result.left }
    {
        let blank = Progress {
            id: Ulid { high: 0, low: 0 },
            ctx: None,
        };
        OwnedJobs {
            maximum,
            job_progress: FixedTable::new(blank),
            left_behind: FixedTable::new(blank.id),
        }
    }

    // How many more jobs may run.
    pub(crate) fn capacity(&self) -> usize
        ensures value { result ≡ self.now.maximum - length self.now.table }
        ensures tracked { Tracked self.now.maximum [] self.now.table self.now.left }
    {
        self.maximum - self.job_progress.len()
    }

    pub(crate) fn has_row(&self, id: Ulid) -> bool
        ensures value { result ≡ holds row_id (id-number id) self.now.table }
        ensures tracked { Tracked self.now.maximum [] self.now.table self.now.left }
    {
        self.job_progress.holds(id)
    }

    // Without the row of an id, which is pending if there was one; says whether there was.
    pub(crate) fn strike_row(&mut self, id: Ulid) -> bool
        ensures value { result ≡ holds row_id (id-number id) self.old.table }
        ensures after { self.new ≡ with_table self.old (strike row_id (id-number id) self.old.table) }
        ensures tracked { Tracked self.new.maximum [] self.new.table self.new.left }
        ensures pending { result ≡ true → Tracked self.new.maximum (id-number id ∷ []) self.new.table self.new.left }
    {
        self.job_progress.strike(id)
    }

    // A row for a pending id.
    pub(crate) fn add_row(&mut self, row: Progress)
        requires { Tracked self.old.maximum ((row_of row).id ∷ []) self.old.table self.old.left }
        ensures after { self.new ≡ with_table self.old (put row_id (row_of row) self.old.table) }
        ensures tracked { Tracked self.new.maximum [] self.new.table self.new.left }
    {
        let _ = self.job_progress.put(row);
    }

    // A row's context, replaced; says whether there is such a row.
    pub(crate) fn set_context(&mut self, row: Progress) -> bool
        ensures value { result ≡ holds row_id (row_of row).id self.old.table }
        ensures after { self.new ≡ (if result then with_table self.old (put row_id (row_of row) self.old.table) else self.old) }
        ensures tracked { Tracked self.new.maximum [] self.new.table self.new.left }
    {
        if !self.has_row(row.id) {
            return false;
        }
        let _ = self.job_progress.put(row);
        true
    }

    // A pending id joins the left-behind list.
    pub(crate) fn leave(&mut self, id: Ulid)
        requires { Tracked self.old.maximum (id-number id ∷ []) self.old.table self.old.left }
        ensures after { self.new ≡ with_list self.old (put self_id (id-number id) self.old.left) }
        ensures tracked { Tracked self.new.maximum [] self.new.table self.new.left }
    {
        let _ = self.left_behind.put(id);
    }

    // Strikes the listed ids that have no entry Running under the number.
    pub(crate) fn keep_running(&mut self, draft: &Draft, number: u32)
        ensures after { self.new ≡ with_list self.old (still_left number (draft_of draft.now).entries self.old.left) }
        ensures tracked { Tracked self.new.maximum [] self.new.table self.new.left }
    {
        self.left_behind.retain(|id| runs_under(draft, *id, number));
    }

    pub(crate) fn rows(&self) -> &[Progress]
        ensures { map row_of result.now ≡ self.now.table }
    {
        self.job_progress.as_slice()
    }

    pub(crate) fn listed(&self) -> &[Ulid]
        ensures value { map id-number result.now ≡ self.now.left }
        ensures tracked { Tracked self.now.maximum [] self.now.table self.now.left }
    {
        self.left_behind.as_slice()
    }
}
