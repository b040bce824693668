// The library for C: exports the calls of capi, each under its name and with its clauses, which stand here again since a crate is a
// library for Rattle or one for C.
#![tactic(auto)]

pub mod memtable; // memtable.rt: the calls on one table
pub mod entry_iter; // entry_iter.rt: the entry cursor and its views
pub mod db_iter; // db_iter.rt: the visible cursor, the lookup in a pair
pub mod row_views; // row_views.rt: the views at the visible cursor
