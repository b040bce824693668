// The calls of include/bavolinesk.h. Each is one call of a lower crate whose answer is made a plain struct. None asks anything of its
// caller but what a pointer and a length of C are, and each fixes its answer. The header has a
// call and a struct for each cursor, for key and value, for one table and for two, and so has this. The crate capi_c exports them.
#![tactic(auto)]

pub mod memtable; // memtable.rt: the calls on one table
pub mod entry_iter; // entry_iter.rt: the entry cursor and its views
pub mod db_iter; // db_iter.rt: the visible cursor, the lookup in a pair
pub mod row_views; // row_views.rt: the views at the visible cursor
