// How SSTs, views, sorted runs and contexts are printed.
use crate::compactor_state::{CompactionContext, Subcompaction};
use crate::db_state::{SortedRun, SsTableId, SsTableView};
use std::fmt;

// With a space between them.
// Its own to this crate, as `write_each` is to marking: a public one would have to promise what is printed.
fn write_between<W: fmt::Write, T: fmt::Display>(
    f: &mut fmt::Formatter<W>,
    items: &[T],
) -> fmt::Result {
    let mut separator = "";
    for item in items {
        write!(f, "{separator}{item}")?;
        separator = " ";
    }
    Ok(())
}

impl fmt::Display for SsTableId {
    fn fmt<W: fmt::Write>(&self, f: &mut fmt::Formatter<W>) -> fmt::Result {
        let id = self.0;
        write!(f, "{id}")
    }
}

impl fmt::Display for SsTableView {
    fn fmt<W: fmt::Write>(&self, f: &mut fmt::Formatter<W>) -> fmt::Result {
        let SsTableView { id, sst } = *self;
        write!(f, "{id}={sst}")
    }
}

// The id, and the views in parentheses.
impl fmt::Display for SortedRun {
    fn fmt<W: fmt::Write>(&self, f: &mut fmt::Formatter<W>) -> fmt::Result {
        let id = self.id;
        write!(f, "{id}(")?;
        write_between(f, self.sst_views.as_slice())?;
        f.write_str(")")
    }
}

// The range, and the outputs in parentheses.
impl fmt::Display for Subcompaction {
    fn fmt<W: fmt::Write>(&self, f: &mut fmt::Formatter<W>) -> fmt::Result {
        let range = self.range;
        write!(f, "{range}(")?;
        write_between(f, self.output_ssts.as_slice())?;
        f.write_str(")")
    }
}

impl fmt::Display for CompactionContext {
    fn fmt<W: fmt::Write>(&self, f: &mut fmt::Formatter<W>) -> fmt::Result {
        match self.retention_min_seq {
            Some(retention) => write!(f, "retention {retention}, subcompactions")?,
            None => f.write_str("retention none, subcompactions")?,
        }
        for sub in self.subcompactions.as_slice() {
            write!(f, " {sub}")?;
        }
        Ok(())
    }
}
