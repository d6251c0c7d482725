// Whose an entry is, and which entries nobody has taken yet.
ghost use Rattle.std.specs.Prelude.{◌≡◌};
ghost use Rattle.std.specs.Option.{option_map};
ghost use Rattle.table.specs.Ids.{number as id-number};
ghost use Rattle.compactions.specs.Meanings.{worker_of, spec_of, entry_of};
ghost use Rattle.stores.specs.Meanings.{draft_of};
ghost use Rattle.worker_steps.specs.Owning.{owned_by, unowned, under, running_under, unclaimed, runs_at};

use compactions::compactor_state::{Compaction, CompactionSpec, CompactionStatus};
use stores::draft::Draft;
use table::ulid::Ulid;

// Whether the entry is under the number of the worker in it, whatever its status.
pub(crate) fn is_under(entry: &Compaction, number: u32) -> bool
    ensures { result ≡ under number (entry_of entry.now) }
{
    entry
        .worker
        .is_some_and(|worker| number == worker.worker_id)
}

// Whether the id has an entry Running under the number.
pub(crate) fn runs_under(draft: &Draft, id: Ulid, number: u32) -> bool
    ensures { result ≡ runs_at number (draft_of draft.now).entries (id-number id) }
{
    draft.get(id).is_some_and(|entry| entry.status == CompactionStatus::Running
        && is_under(&entry, number))
}

// Whether the entry is Scheduled, tiered and without worker.
pub(crate) fn is_unclaimed(entry: &Compaction) -> bool
    ensures { result ≡ unclaimed (entry_of entry.now) }
{
    entry.status == CompactionStatus::Scheduled
        && entry.spec.destination().is_some()
        && entry.worker.is_none()
}
