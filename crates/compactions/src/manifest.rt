// A manifest: the root tree, the trees of named segments, and two numbers of the whole database.
//
// Reworked from src/manifest/mod.rs of slatedb 0.16.0 (Apache-2.0, see NOTICE); changed: fixed
// sizes with refusals, and only what the argument check reads.
ghost use Rattle.std.specs.Prelude.{◌≡◌, true, [], map};
ghost use Rattle.table.specs.Counted.{items_of};
ghost use Rattle.compactions.specs.Prefixes.{rises};

use crate::db_state::{SortedRun, SsTableView};
use crate::rows::Rows;

mod methods;

#[derive(Clone, Copy)]
pub struct LsmTreeState {
    pub l0: Rows<SsTableView, 16>,
    pub compacted: Rows<SortedRun, 8>,
}

#[derive(Clone, Copy)]
pub struct Segment {
    pub prefix: Rows<u8, 16>,
    pub tree: LsmTreeState,
}

// The prefixes are not empty and rise strictly, so each names one segment.
#[derive(Clone, Copy)]
pub struct Manifest {
    pub tree: LsmTreeState,
    segments: Rows<Segment, 8>,
    pub last_l0_clock_tick: i64,
    pub recent_snapshot_min_seq: u64,
    ghost ascending: { rises [] (map (λ s. items_of s.prefix) (items_of segments)) ≡ true },
}
