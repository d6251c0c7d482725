// SSTs, views of them and sorted runs of views.
//
// Reworked from src/db_state.rs of slatedb 0.16.0 (Apache-2.0, see NOTICE); changed: an SST is its
// 16-byte id, a view has no key range, a run has at most eight views.
ghost use Rattle.std.specs.Prelude.{◌≡◌, [], length, is_ok, if◌then◌else◌, nat_lt};
ghost use Rattle.compactions.specs.Trees.{more_views};
ghost use Rattle.compactions.specs.Meanings.{view_of, run_of};
ghost use Rattle.compactions.specs.Refusals.{refused_with, unless};

use crate::refusal::Refusal;
use crate::rows::Rows;
use table::ulid::Ulid;

#[derive(Clone, Copy, PartialEq, Eq, Debug)]
pub struct SsTableId(pub Ulid);

#[derive(Clone, Copy, PartialEq, Eq, Debug)]
pub struct SsTableView {
    pub id: Ulid,
    pub sst: SsTableId,
}

#[derive(Clone, Copy)]
pub struct SortedRun {
    pub id: u32,
    pub sst_views: Rows<SsTableView, 8>,
}

// What fills the places that do not count.
pub const NO_SST: SsTableId = SsTableId(Ulid { high: 0, low: 0 });

pub const NO_VIEW: SsTableView = SsTableView {
    id: Ulid { high: 0, low: 0 },
    sst: NO_SST,
};

impl SortedRun {
    pub fn new(id: u32) -> SortedRun
        ensures { run_of result ≡ record { id = id; views = [] } }
    {
        SortedRun {
            id,
            sst_views: Rows::new(NO_VIEW),
        }
    }

    // One view more; a ninth is refused.
    pub fn add_view(&mut self, view: SsTableView) -> Result<(), Refusal>
        ensures value { refused_with result ≡ unless (nat_lt (length (run_of self.old).views) 8) 1 }
        ensures after { run_of self.new ≡ (if is_ok result then more_views (view_of view) (run_of self.old) else run_of self.old) }
    {
        self.sst_views.push(view, Refusal::Count)
    }
}
