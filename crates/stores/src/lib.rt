// The record of compactions and the stores that keep it.
#![tactic(auto)]

mod apply;
pub mod compactions_store;
pub mod draft;
pub mod held_store;
pub mod interference;
pub mod list_store;
pub mod record;
