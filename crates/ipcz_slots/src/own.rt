//! What a seat knows of slots, for proofs alone.
use std::collections::LinkedList;

/// What a seat knows of a table with slots, beside what it knows of the virtual table. No value of it is made.
pub struct Own<V> {
    pub view: V,
    /// The slots whose word it is to empty.
    pub dirty: LinkedList<u64>,
    /// The slots that are free, and its own.
    pub free: LinkedList<u64>,
    /// The slots that it looked at and that weren't to be had, the last one first.
    pub looked: LinkedList<u64>,
}
