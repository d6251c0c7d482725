ghost use Rattle.std.specs.Prelude.{◌≡◌, ◌+◌, ◌-◌, ◌^◌, ◌<◌, ◌≤◌, true, ltb, [], map, length, is_ok, if◌then◌else◌, Some, None};
ghost use Rattle.std.specs.Option.{option_map};
ghost use Rattle.table.specs.Ids.{number};
ghost use Rattle.table.specs.Tables.{lookup, holds, put, admits, strike};
ghost use Rattle.compactions.specs.Meanings.{entry_of};
ghost use Rattle.compactions.specs.Refusals.{refused_with, unless};
ghost use Rattle.stores.specs.Records.{entry_id, with_entries, last_version, raised, put_entry, remove_entry, after_change};
ghost use Rattle.stores.specs.Meanings.{record_of};

use super::Compactions;
use compactions::compactor_state::{Compaction, CompactionSpec};
use compactions::refusal::Refusal;
use table::fixed_table::FixedTable;
use table::ulid::Ulid;

impl Compactions {
    // An empty record; versions begin at 1.
    pub fn new(version: u64) -> Option<Compactions>
        ensures { option_map record_of result ≡ (if ltb 0 version then Some (record { version = version; entries = [] }) else None) }
    {
        if version == 0 {
            return None;
        }
        Some(Compactions {
            version,
            entries: FixedTable::new(Compaction::new(
                Ulid { high: 0, low: 0 },
                CompactionSpec::new(0),
            )),
        })
    }

    pub fn version(&self) -> u64
        ensures { result ≡ (record_of self.now).version }
    {
        self.version
    }

    // The entries, in ascending order of their ids.
    pub fn entries(&self) -> &[Compaction]
        ensures value { map entry_of result.now ≡ (record_of self.now).entries }
        ensures within { length result.now ≤ 32 }
    {
        self.entries.as_slice()
    }

    pub fn get(&self, id: Ulid) -> Option<Compaction>
        ensures { option_map entry_of result ≡ lookup entry_id (number id) (record_of self.now).entries }
    {
        self.entries.get(id)
    }

    // The entry in the place of the one with its id, or one more; a thirty-third is refused.
    pub fn insert(&mut self, entry: Compaction) -> Result<(), Refusal>
        ensures value { refused_with result ≡ unless (admits entry_id 32 (entry_of entry) (record_of self.old).entries) 1 }
        ensures after { record_of self.new ≡ (if is_ok result then with_entries (record_of self.old) (put entry_id (entry_of entry) (record_of self.old).entries) else record_of self.old) }
    {
        self.entries.put(entry).map_err(|_| Refusal::Count)
    }

    // The record after someone else put an entry: one version on, unless there is no place or no version left.
    // It and `with_removed` share `changed_to`; what is left of each is its change.
    pub(crate) fn with_put(self, entry: Compaction) -> Compactions
        ensures { record_of result ≡ put_entry (entry_of entry) (record_of self) }
    {
        let mut next = self;
        let placed = next.insert(entry).is_ok();
        self.changed_to(placed.then_some(next))
    }

    // The record after someone else removed an id: one version on, unless it is missing or no version is left.
    pub(crate) fn with_removed(self, id: Ulid) -> Compactions
        ensures { record_of result ≡ remove_entry (number id) (record_of self) }
    {
        let mut next = self;
        let had = next.entries.strike(id);
        self.changed_to(had.then_some(next))
    }

    // A changed record one version on, or this one where there is none or no version is left.
    fn changed_to(self, changed: Option<Compactions>) -> Compactions
        ensures { record_of result ≡ after_change (option_map record_of changed) (record_of self) }
    {
        changed.and_then(Compactions::raised).unwrap_or(self)
    }

    // The same entries one version on; none where no version is left.
    pub(crate) fn raised(self) -> Option<Compactions>
        ensures { option_map record_of result ≡ (if ltb (record_of self).version last_version then Some (raised (record_of self) (record_of self).entries) else None) }
    {
        Some(Compactions {
            version: self.version.checked_add(1)?,
            entries: self.entries,
        })
    }
}
