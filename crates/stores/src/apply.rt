// What edits and updates do to a record, for the stores that hold one.
ghost use Rattle.std.specs.Prelude.{◌≡◌, map};
ghost use Rattle.std.specs.Option.{option_map};
ghost use Rattle.stores.specs.Stores.{edited, all_edited, replacing};
ghost use Rattle.stores.specs.Meanings.{record_of, draft_of, edit_of, update_answer_of};

use crate::compactions_store::{Step, StoreFault, Updated};
use crate::draft::Draft;
use crate::interference::Edit;
use crate::record::Compactions;

fn one_edit(current: Option<Compactions>, edit: Edit) -> Option<Compactions>
    ensures { option_map record_of result ≡ edited (edit_of edit) (option_map record_of current) }
{
    match edit {
        Edit::Create => current.or_else(|| Compactions::new(1)),
        Edit::Put(entry) => current.map(|record| record.with_put(entry)),
        Edit::Remove(id) => current.map(|record| record.with_removed(id)),
    }
}

// The record after edits in their order. A `for`: as a fold it proves with one lemma more.
pub(crate) fn every_edit(current: Option<Compactions>, edits: &[Edit]) -> Option<Compactions>
    ensures { option_map record_of result ≡ all_edited (map edit_of edits.now) (option_map record_of current) }
{
    let mut current = current;
    for edit in edits {
        current = one_edit(current, *edit);
    }
    current
}

// What an update that is not down does: the record that it leaves, and its answer.
pub(crate) fn settle(current: &mut Option<Compactions>, draft: Draft) -> Result<Updated, StoreFault>
    ensures left { option_map record_of current.new ≡ (replacing (draft_of draft) (option_map record_of current.old)).now }
    ensures answer { update_answer_of result ≡ (replacing (draft_of draft) (option_map record_of current.old)).answer }
{
    let handed_in = draft.into_record();
    match current {
        Some(record) if record.version() == handed_in.version() => {
            *record = handed_in.raised().ok_or(StoreFault {
                step: Step::Update,
                cause: 0,
            })?;
            Ok(Updated::Landed)
        }
        _ => Ok(Updated::Conflict),
    }
}
