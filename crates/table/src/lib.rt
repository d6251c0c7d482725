// Rows with ids, kept in ascending order.
#![tactic(auto)]

pub mod fixed_table;
mod lend;
pub mod row;
pub mod rows;
pub mod scan;
pub mod table;
pub mod ulid;
