//! A cell's seat at the table.
use atomic_table::Seat;
use ipcz_node::Batch;
use ipcz_rule::View;
use ipcz_slots::Own;

/// A seat at a table with slots. What it knows of the table that is folded, in which each number has a word of its own, is its view's `view`.
pub(crate) type TableSeat = Seat<Batch, Own<View>>;
