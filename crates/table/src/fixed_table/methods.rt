ghost use Rattle.std.specs.Prelude.{◌≡◌, Bool, [], length, filter, is_ok, if◌then◌else◌, ⊤};
ghost use Rattle.table.specs.Fixed.{rows_in};
ghost use Rattle.table.specs.Ids.{by, number};
ghost use Rattle.table.specs.Keeping.{Answers};
ghost use Rattle.table.specs.Laws.{Lawful};
ghost use Rattle.table.specs.Tables.{lookup, holds, put, admits, strike};

use super::FixedTable;
use crate::lend::{put_among, strike_among};
use crate::row::Row;
use crate::rows::Rows;
use crate::scan;
use crate::table::Full;
use crate::ulid::Ulid;
use std::alloc::AllocError;

// By hand, since a derive gives none of a generic struct with a ghost field.
impl<R: Row, const N: usize> Clone for FixedTable<R, N> {
    ghost is_clone = { λ x y. y ≡ x };

    ghost is_infallible = { λ _. ⊤ };

    fn clone(&self) -> Result<FixedTable<R, N>, AllocError> {
        Ok(*self)
    }
}

impl<R: Row, const N: usize> FixedTable<R, N> {
    // No row yet; `blank` fills the places that do not count.
    pub fn new(blank: R) -> FixedTable<R, N>
        ensures rows { rows_in result ≡ [] }
        ensures laws { Lawful (by R.named) }
    {
        FixedTable {
            rows: Rows::new(blank),
        }
    }

    // The rows, in ascending order of their ids.
    pub fn as_slice(&self) -> &[R]
        ensures { result.now ≡ rows_in self.now }
    {
        self.rows.as_slice()
    }

    pub fn len(&self) -> usize
        ensures { result ≡ length (rows_in self.now) }
    {
        self.as_slice().len()
    }

    pub fn get(&self, id: Ulid) -> Option<R>
        ensures { result ≡ lookup (by R.named) (number id) (rows_in self.now) }
    {
        scan::find(self.as_slice(), id)
    }

    pub fn holds(&self, id: Ulid) -> bool
        ensures { result ≡ holds (by R.named) (number id) (rows_in self.now) }
    {
        self.get(id).is_some()
    }

    // In the place of the row with its id, or one row more; full where all N places count already.
    pub fn put(&mut self, row: R) -> Result<(), Full>
        ensures value { is_ok result ≡ admits (by R.named) N row (rows_in self.old) }
        ensures after { rows_in self.new ≡ (if is_ok result then put (by R.named) row (rows_in self.old) else rows_in self.old) }
    {
        let (len, done) = put_among(&mut self.rows.items, self.rows.len, row);
        self.rows.len = len;
        done
    }

    // Without the row of an id; whether there was one.
    pub fn strike(&mut self, id: Ulid) -> bool
        ensures value { result ≡ holds (by R.named) (number id) (rows_in self.old) }
        ensures after { rows_in self.new ≡ strike (by R.named) (number id) (rows_in self.old) }
    {
        let (len, had) = strike_among(&mut self.rows.items, self.rows.len, id);
        self.rows.len = len;
        had
    }

    pub fn clear(&mut self)
        ensures { rows_in self.new ≡ [] }
    {
        self.rows.clear();
    }

    // The rows for which `keep` answers true.
    pub fn retain<F: Fn(&R) -> bool>(&mut self, keep: F)
        requires { F.IsAlwaysCallable keep }
        ensures { (p : R → Bool) → Answers F.Fn keep p → rows_in self.new ≡ filter p (rows_in self.old) }
    {
        self.rows.retain(keep);
    }
}
