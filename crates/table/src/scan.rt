// Where an id stands among rows, and the row that has it.
ghost use Rattle.std.specs.Prelude.{◌≡◌};
ghost use Rattle.std.specs.List.{slice_get};
ghost use Rattle.table.specs.Ids.{by, number};
ghost use Rattle.table.specs.Tables.{lookup, first_with, not_before, named_so, hits};

use crate::row::Row;
use crate::ulid::Ulid;

// The place of the first row whose id is not before `id`: where a row of that id would go, so one past
// the last is a place too and no Option. `spot` differs in its test alone, a line that both show.
pub(crate) fn place<R: Row>(rows: &[R], id: Ulid) -> usize
    ensures { result ≡ first_with (not_before (by R.named) (number id)) rows.now }
{
    rows.iter()
        .position(|row| row.id() >= id)
        .unwrap_or(rows.len())
}

// The place of the first row whose id is `id`; one past the last where there is none, as `first_with`
// and std's laws of places have it, so that its callers compare it with the length.
pub(crate) fn spot<R: Row>(rows: &[R], id: Ulid) -> usize
    ensures { result ≡ first_with (named_so (by R.named) (number id)) rows.now }
{
    rows.iter()
        .position(|row| row.id() == id)
        .unwrap_or(rows.len())
}

// The row with an id, of rows that are only read.
pub fn find<R: Row>(rows: &[R], id: Ulid) -> Option<R>
    ensures { result ≡ lookup (by R.named) (number id) rows.now }
{
    rows.iter().find(|row| row.id() == id).copied()
}

// Whether the row at a place has the id.
pub(crate) fn is_at<R: Row>(rows: &[R], at: usize, id: Ulid) -> bool
    ensures { result ≡ hits (by R.named) (number id) (slice_get rows.now at) }
{
    matches!(rows.get(at), Some(row) if row.id() == id)
}
