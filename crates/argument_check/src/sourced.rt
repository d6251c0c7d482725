// The rows of a tree that a source can name: views and sorted runs.
ghost use Rattle.std.specs.Prelude.{◌≡◌, ℕ, ◌≤◌, map, length, None, Option};
ghost use Rattle.std.specs.Option.{option_map};
ghost use Rattle.table.specs.Counted.{items_of};
ghost use Rattle.compactions.specs.Entries.{Source};
ghost use Rattle.table.specs.Ids.{number};
ghost use Rattle.compactions.specs.Meanings.{source_of};
ghost use Rattle.argument_check.specs.Check.{asked_view, asked_run, last_under, found};

use compactions::compactor_state::SourceId;
use compactions::db_state::{SortedRun, SsTableView};
use compactions::refusal::Refusal;
use compactions::rows::Rows;

pub trait Sourced: Copy {
    ghost named: { Self → ℕ };

    ghost asked: { Source → Option ℕ };

    // The number that rows of this kind are looked up by.
    fn key(&self) -> u128
        ensures { result ≡ named self.now };

    // The key that a source asks for among rows of this kind.
    fn asked_by(source: SourceId) -> Option<u128>
        ensures { result ≡ asked (source_of source) };
}

impl Sourced for SsTableView {
    ghost named = { λ v. number v.id };

    ghost asked = { asked_view };

    fn key(&self) -> u128 {
        u128::from(self.id)
    }

    fn asked_by(source: SourceId) -> Option<u128> {
        match source {
            SourceId::SortedRun(_) => None,
            SourceId::SstView(id) => Some(u128::from(id)),
        }
    }
}

impl Sourced for SortedRun {
    ghost named = { λ s. s.id };

    ghost asked = { asked_run };

    fn key(&self) -> u128 {
        u128::from(self.id)
    }

    fn asked_by(source: SourceId) -> Option<u128> {
        match source {
            SourceId::SortedRun(id) => Some(u128::from(id)),
            SourceId::SstView(_) => None,
        }
    }
}

// The last of the rows with a key.
fn last_with<R: Sourced>(rows: &[R], key: u128) -> Option<R>
    ensures { result ≡ last_under R.named key rows.now None }
{
    rows.iter().rev().find(|row| key == row.key()).copied()
}

// The rows that the sources ask for, in the sources' order; none where one is missing.
pub(crate) fn look_up<R: Sourced>(sources: &[SourceId], rows: &[R], blank: R) -> Option<Rows<R, 8>>
    requires { length sources.now ≤ 8 }
    ensures { option_map items_of result ≡ found R.named R.asked (map source_of sources.now) rows.now }
{
    let mut named = Rows::new(blank);
    for source in sources {
        if let Some(key) = R::asked_by(*source) {
            let row = last_with(rows, key)?;
            // there is a place for each source
            let _ = named.push(row, Refusal::Count);
        }
    }
    Some(named)
}
