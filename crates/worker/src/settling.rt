// Works on one entry: what they answer, and what they share.
ghost use Rattle.std.specs.Prelude.{◌≡◌, true};
ghost use Rattle.std.specs.Option.{option_map};
ghost use Rattle.table.specs.Ids.{number as id-number};
ghost use Rattle.table.specs.Tables.{lookup, holds, put};
ghost use Rattle.compactions.specs.Meanings.{entry_of};
ghost use Rattle.stores.specs.Records.{entry_id, with_entries};
ghost use Rattle.stores.specs.Stores.{update};
ghost use Rattle.stores.specs.Meanings.{draft_of};
ghost use Rattle.worker_steps.specs.Faults.{fault_during, store_failed};
ghost use Rattle.worker_steps.specs.Effects.{on_update};
ghost use Rattle.worker_steps.specs.Releases.{written, stuck};
ghost use Rattle.worker.specs.Settling.{if_own, settle_turn_of};

use crate::owning::is_under;
use compactions::compactor_state::Compaction;
use stores::compactions_store::{CompactionsStore, Updated};
use stores::draft::Draft;
use table::ulid::Ulid;
use worker_steps::fault::{During, WorkerFault};

// What a work on one entry came to: written, or dropped since the entry is missing or not under the number.
#[derive(Clone, Copy, PartialEq, Eq, Debug)]
pub enum Settled {
    Written,
    Dropped,
}

// The entry of an id, if it is under the number.
pub(crate) fn own_entry(draft: &Draft, id: Ulid, number: u32) -> Option<Compaction>
    ensures { option_map entry_of result ≡ if_own number (lookup entry_id (id-number id) (draft_of draft.now).entries) }
{
    draft.get(id).filter(|entry| is_under(entry, number))
}

// Hands the draft in with one entry in the place of the one with its id; gives nothing after a conflict.
pub(crate) fn hand_in<S: CompactionsStore>(
    store: &mut S,
    draft: Draft,
    entry: Compaction,
    during: During,
) -> Result<Option<Settled>, WorkerFault>
    requires { holds entry_id (entry_of entry).id (draft_of draft).entries ≡ true }
    ensures answer { settle_turn_of result ≡ on_update (update (with_entries (draft_of draft) (put entry_id (entry_of entry) (draft_of draft).entries)) (S.meaning store.old)).answer written (λ f. stuck (fault_during (store_failed f) during)) }
    ensures after { S.meaning store.new ≡ (update (with_entries (draft_of draft) (put entry_id (entry_of entry) (draft_of draft).entries)) (S.meaning store.old)).after }
{
    let mut draft = draft;
    let _ = draft.insert(entry);
    match during.tell(store.update(draft))? {
        Updated::Landed => Ok(Some(Settled::Written)),
        Updated::Conflict => Ok(None),
    }
}
