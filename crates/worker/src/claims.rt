// Claimed entries as tokens: each has to be started, released or left behind, and none can be let go.
ghost use Rattle.std.specs.Prelude.{◌≡◌, ◌≤◌, [], map, length};
ghost use Rattle.table.specs.Ids.{number};
ghost use Rattle.table.specs.Counted.{items_of};
ghost use Rattle.compactions.specs.Meanings.{entry_of};
ghost use Rattle.worker.specs.Claims.{chosen_of, waiting, claimed, first_of, rest_of};

use compactions::compactor_state::{Compaction, CompactionSpec};
use compactions::rows::Rows;
use table::ulid::Ulid;

// The entries that an attempt chose, and how many jobs it stopped on the way. They are not claimed yet.
#[derive(Drop)]
pub struct Chosen {
    pub entries: Rows<Compaction, 8>,
    pub stopped: u32,
}

// A claimed entry, as it was read. It is no `Drop`: `spend` is the only way out.
pub struct Claim {
    entry: Compaction,
}

// The claimed entries that wait, in their order. The rows lie in the value itself and none moves, since
// no call of the worker may allocate: so an index says how many are taken.
pub struct Claims {
    entries: Rows<Compaction, 8>,
    at: usize,
}

impl Chosen {
    pub(crate) fn new() -> Chosen
        ensures { (chosen_of result ≡ []) × (result.stopped ≡ 0) }
    {
        let blank = Compaction::new(Ulid { high: 0, low: 0 }, CompactionSpec::new(0));
        Chosen {
            entries: Rows::new(blank),
            stopped: 0,
        }
    }
}

impl Claim {
    pub(crate) fn entry(&self) -> &Compaction
        ensures { result.now ≡ self.now.entry }
    {
        &self.entry
    }

    pub(crate) fn spend(self) -> Ulid
        ensures { number result ≡ (entry_of self.entry).id }
    {
        let Claim { entry } = self;
        entry.id
    }
}

impl Claims {
    pub(crate) fn of(entries: Rows<Compaction, 8>) -> Claims
        ensures { waiting result ≡ map entry_of (items_of entries) }
    {
        Claims { entries, at: 0 }
    }

    // How many wait.
    pub(crate) fn count(&self) -> u32
        ensures { result ≡ length (waiting self.now) }
    {
        let all = self.entries.as_slice();
        all.len().saturating_sub(self.at) as u32
    }

    pub(crate) fn take(&mut self) -> Option<Claim>
        ensures first { claimed result ≡ first_of (waiting self.old) }
        ensures after { waiting self.new ≡ rest_of (waiting self.old) }
    {
        let all = self.entries.as_slice();
        if self.at >= all.len() {
            return None;
        }
        let entry = all[self.at];
        self.at += 1;
        Some(Claim { entry })
    }

    // Ends a row of claims that are all taken.
    pub(crate) fn finish(self)
        requires { waiting self ≡ [] }
    {
        let Claims { entries: _, at: _ } = self;
    }
}
