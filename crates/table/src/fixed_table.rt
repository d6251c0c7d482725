// An ordered table that has its own rows: at most N by value, in strictly ascending order of their ids.
ghost use Rattle.std.specs.Prelude.{◌≡◌, true};
ghost use Rattle.table.specs.Counted.{items_of};
ghost use Rattle.table.specs.Ids.{by};
ghost use Rattle.table.specs.Tables.{ascends};

mod methods;

use crate::row::Row;
use crate::rows::Rows;

#[derive(Copy)]
pub struct FixedTable<R: Row, const N: usize> {
    rows: Rows<R, N>,
    ghost ascending: { ascends (by R.named) (items_of rows) ≡ true },
}
