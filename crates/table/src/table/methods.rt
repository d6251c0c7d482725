ghost use Rattle.std.specs.Prelude.{◌≡◌, ◌<◌, ◌≤◌, true, [], length, take, is_ok, if◌then◌else◌, ◌==◌, slice_set};
ghost use Rattle.std.specs.List.{slice_get, insert, remove};
ghost use Rattle.table.specs.Ids.{by, number};
ghost use Rattle.table.specs.Laws.{Lawful};
ghost use Rattle.table.specs.Tables.{ascends, lookup, holds, put, admits, strike, first_with, not_before, named_so, hits};
ghost use Rattle.table.specs.Meaning.{rows_of, room_of, lent_of, with_rows};

use super::{Full, Table};
use crate::row::Row;
use crate::scan;
use crate::ulid::Ulid;

// A clause `lender` says that the rows are still the same loan: of a struct that holds a `&mut` that has
// to stand on each function that changes it.
impl<'a, R: Row> Table<'a, R> {
    // The first `len` of the rows, or all of them where there are fewer.
    pub fn over(rows: &'a mut [R], len: usize) -> Table<'a, R>
        ensures rows { rows_of result ≡ take len rows.old }
        ensures room { room_of result ≡ length rows.old }
        ensures lender { result.rows.ghost_name ≡ rows.entry.ghost_name }
        ensures laws { Lawful (by R.named) }
    {
        let len = len.min(rows.len());
        Table { rows, len }
    }

    pub fn len(&self) -> usize
        ensures { result ≡ length (rows_of self.now) }
    {
        self.as_slice().len()
    }

    fn is_full(&self) -> bool
        ensures { result ≡ (length (rows_of self.now) == room_of self.now) }
    {
        self.len == self.rows.len()
    }

    // The rows, in ascending order of their ids where the table was made so.
    pub fn as_slice(&self) -> &[R]
        ensures { result.now ≡ rows_of self.now }
    {
        &self.rows[0..self.len]
    }

    // This, `spot` and `is_at` say of a table's rows what scan's functions say of a slice, so that the
    // contracts below need not.
    // The place of the first row whose id is not before `id`.
    fn place(&self, id: Ulid) -> usize
        ensures { result ≡ first_with (not_before (by R.named) (number id)) (rows_of self.now) }
    {
        scan::place(self.as_slice(), id)
    }

    // The place of the first row whose id is `id`.
    fn spot(&self, id: Ulid) -> usize
        ensures { result ≡ first_with (named_so (by R.named) (number id)) (rows_of self.now) }
    {
        scan::spot(self.as_slice(), id)
    }

    pub fn get(&self, id: Ulid) -> Option<R>
        ensures { result ≡ lookup (by R.named) (number id) (rows_of self.now) }
    {
        scan::find(self.as_slice(), id)
    }

    pub fn holds(&self, id: Ulid) -> bool
        ensures { result ≡ holds (by R.named) (number id) (rows_of self.now) }
    {
        self.spot(id) < self.len
    }

    // Whether the row at a place has the id.
    fn is_at(&self, at: usize, id: Ulid) -> bool
        ensures { result ≡ hits (by R.named) (number id) (slice_get (rows_of self.now) at) }
    {
        scan::is_at(self.as_slice(), at, id)
    }

    fn write_at(&mut self, at: usize, row: R)
        requires { at < self.old.len }
        ensures after { lent_of self.new ≡ with_rows (lent_of self.old) (slice_set (rows_of self.old) at row) }
        ensures lender { self.new.rows.ghost_name ≡ self.old.rows.ghost_name }
    {
        self.rows[at] = row;
    }

    fn insert_at(&mut self, at: usize, row: R)
        requires room { self.old.len < room_of self.old }
        requires within { at ≤ self.old.len }
        ensures after { lent_of self.new ≡ with_rows (lent_of self.old) (insert (rows_of self.old) at row) }
        ensures lender { self.new.rows.ghost_name ≡ self.old.rows.ghost_name }
    {
        let len = self.len;
        self.rows.copy_within(at..len, at + 1);
        self.rows[at] = row;
        self.len = len + 1;
    }

    fn remove_at(&mut self, at: usize)
        requires { at < self.old.len }
        ensures after { lent_of self.new ≡ with_rows (lent_of self.old) (remove (rows_of self.old) at) }
        ensures lender { self.new.rows.ghost_name ≡ self.old.rows.ghost_name }
    {
        let len = self.len;
        self.rows.copy_within(at + 1..len, at);
        self.len = len - 1;
    }

    pub fn put(&mut self, row: R) -> Result<(), Full>
        ensures value { is_ok result ≡ admits (by R.named) (room_of self.old) row (rows_of self.old) }
        ensures after { lent_of self.new ≡ with_rows (lent_of self.old) (if is_ok result then put (by R.named) row (rows_of self.old) else rows_of self.old) }
        ensures ordered { ascends (by R.named) (rows_of self.old) ≡ true → ascends (by R.named) (rows_of self.new) ≡ true }
        ensures lender { self.new.rows.ghost_name ≡ self.old.rows.ghost_name }
    {
        let id = row.id();
        let at = self.place(id);
        if self.is_at(at, id) {
            self.write_at(at, row);
            return Ok(());
        }
        if self.is_full() {
            return Err(Full);
        }
        self.insert_at(at, row);
        Ok(())
    }

    pub fn strike(&mut self, id: Ulid) -> bool
        ensures value { result ≡ holds (by R.named) (number id) (rows_of self.old) }
        ensures after { lent_of self.new ≡ with_rows (lent_of self.old) (strike (by R.named) (number id) (rows_of self.old)) }
        ensures ordered { ascends (by R.named) (rows_of self.old) ≡ true → ascends (by R.named) (rows_of self.new) ≡ true }
        ensures lender { self.new.rows.ghost_name ≡ self.old.rows.ghost_name }
    {
        let spot = self.spot(id);
        if spot == self.len {
            return false;
        }
        self.remove_at(spot);
        true
    }

    pub fn clear(&mut self)
        ensures after { lent_of self.new ≡ with_rows (lent_of self.old) [] }
        ensures lender { self.new.rows.ghost_name ≡ self.old.rows.ghost_name }
    {
        self.len = 0;
    }
}
