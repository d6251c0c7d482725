// A record that was read, to be changed and handed in by one update. Only a read of a store makes
// one, and it can be neither copied nor handed in twice.
ghost use Rattle.std.specs.Prelude.{◌≡◌, ◌≤◌, map, length, is_ok, if◌then◌else◌};
ghost use Rattle.std.specs.Option.{option_map};
ghost use Rattle.table.specs.Ids.{number};
ghost use Rattle.table.specs.Tables.{lookup, put, admits};
ghost use Rattle.compactions.specs.Meanings.{entry_of};
ghost use Rattle.compactions.specs.Refusals.{refused_with, unless};
ghost use Rattle.stores.specs.Records.{entry_id, with_entries};
ghost use Rattle.stores.specs.Meanings.{record_of, draft_of};

use crate::record::Compactions;
use compactions::compactor_state::Compaction;
use compactions::refusal::Refusal;
use table::ulid::Ulid;

#[derive(Drop)]
pub struct Draft {
    record: Compactions,
}

impl Draft {
    pub(crate) fn of(record: Compactions) -> Draft
        ensures { draft_of result ≡ record_of «record» }
    {
        Draft { record }
    }

    // The entries, in ascending order of their ids.
    pub fn entries(&self) -> &[Compaction]
        ensures value { map entry_of result.now ≡ (draft_of self.now).entries }
        ensures within { length result.now ≤ 32 }
    {
        self.record.entries()
    }

    pub fn get(&self, id: Ulid) -> Option<Compaction>
        ensures { option_map entry_of result ≡ lookup entry_id (number id) (draft_of self.now).entries }
    {
        self.record.get(id)
    }

    // The entry in the place of the one with its id, or one more; a thirty-third is refused.
    pub fn insert(&mut self, entry: Compaction) -> Result<(), Refusal>
        ensures value { refused_with result ≡ unless (admits entry_id 32 (entry_of entry) (draft_of self.old).entries) 1 }
        ensures after { draft_of self.new ≡ (if is_ok result then with_entries (draft_of self.old) (put entry_id (entry_of entry) (draft_of self.old).entries) else draft_of self.old) }
    {
        self.record.insert(entry)
    }

    pub(crate) fn into_record(self) -> Compactions
        ensures { record_of result ≡ draft_of self }
    {
        self.record
    }
}
