// A table over rows that are lent for one change. Each answers how many of them count after it; of
// rows that stand in a field of a generic struct, only such a call lets a proof know what they are then.
// Not one function that takes the change as a closure: that would have to be lent the table.
ghost use Rattle.std.specs.Prelude.{◌≡◌, ◌≤◌, true, length, take, is_ok, if◌then◌else◌};
ghost use Rattle.table.specs.Ids.{by, number};
ghost use Rattle.table.specs.Tables.{ascends, holds, put, admits, strike};

use crate::row::Row;
use crate::table::{Full, Table};
use crate::ulid::Ulid;

pub(crate) fn put_among<R: Row>(rows: &mut [R], len: usize, row: R) -> (usize, Result<(), Full>)
    ensures value { is_ok result.1 ≡ admits (by R.named) (length rows.old) row (take len rows.old) }
    ensures after { take result.0 rows.new ≡ (if is_ok result.1 then put (by R.named) row (take len rows.old) else take len rows.old) }
    ensures room { length rows.new ≡ length rows.old }
    ensures ordered { ascends (by R.named) (take len rows.old) ≡ true → ascends (by R.named) (take result.0 rows.new) ≡ true }
    ensures within { result.0 ≤ length rows.new }
{
    let mut table = Table::over(rows, len);
    let done = table.put(row);
    (table.len(), done)
}

pub(crate) fn strike_among<R: Row>(rows: &mut [R], len: usize, id: Ulid) -> (usize, bool)
    ensures value { result.1 ≡ holds (by R.named) (number id) (take len rows.old) }
    ensures after { take result.0 rows.new ≡ strike (by R.named) (number id) (take len rows.old) }
    ensures room { length rows.new ≡ length rows.old }
    ensures ordered { ascends (by R.named) (take len rows.old) ≡ true → ascends (by R.named) (take result.0 rows.new) ≡ true }
    ensures within { result.0 ≤ length rows.new }
{
    let mut table = Table::over(rows, len);
    let had = table.strike(id);
    (table.len(), had)
}
