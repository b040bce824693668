// The visible cursor over two tables.
#![tactic(auto)]

pub mod places; // places.rt: places in two tables
pub mod merging_iter; // merging_iter.rt: what the two tables answer together
pub mod walk; // walk.rt: from a cut on, the first key that has a row
pub mod db_iter; // db_iter.rt: the moves of the visible cursor
pub mod row_views; // row_views.rt: what stands at the visible cursor, and where
