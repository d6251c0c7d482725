// A record of compactions: a version from 1 on, and up to 32 entries in ascending order of their ids.
//
// Reworked from `Compactions` in src/compactor_state.rs of slatedb 0.16.0 (Apache-2.0, see NOTICE);
// changed: the version is part of the record, entries beyond 32 are refused.
ghost use Rattle.std.specs.Prelude.{◌≤◌};

use compactions::compactor_state::Compaction;
use table::fixed_table::FixedTable;

mod methods;

#[derive(Clone, Copy)]
pub struct Compactions {
    version: u64,
    entries: FixedTable<Compaction, 32>,
    ghost begun: { 1 ≤ version },
}
